// Operations over two integers.
ghost use Rattle.std.specs.Prelude.{◌≡◌, ◌≢◌, pos, ◌+ℤ◌, ◌-ℤ◌, ◌*ℤ◌, ◌∷◌, [], int_div, int_rem};
ghost use Rattle.heap_cells.specs.Laying.{Cells};
ghost use Rattle.heap_cells.specs.Standing.{IsValue, Places};
ghost use Rattle.prim_table.specs.Answers.{AreTagged, HasCore, IsPlain};
ghost use Rattle.prim_table.specs.Kinds.{operated};
ghost use Rattle.self_terms.specs.Words.{IsSmall};
ghost use Rattle.self_terms.specs.declared.values.Value.TheVariants.{Int};
ghost use Rattle.self_terms.specs.declared.values.Value.{Value};
ghost use Rattle.source_model.specs.Primitives.{Gives, checked, divided, of_integers, truth};
ghost use Rattle.source_model.specs.declared.objects.Core.{Core};

use crate::answers::{CoreWords, PrimAnswer};
use crate::kinds::Operation;
use self_terms::{ErrorName, Word, int_of_word, is_int, word_of_int};

// An integer within 30 bits.
fn checked(int: i64) -> PrimAnswer
    ensures { (h : Cells) (p : Places) → IsPlain h p result (checked int) }
{
    if int < -536_870_912 || 536_870_911 < int {
        return PrimAnswer::Fails(ErrorName::Overflow);
    }
    PrimAnswer::Done(word_of_int(int as i32))
}

pub fn truth(core: CoreWords, holds: bool) -> PrimAnswer
    ensures { (h : Cells) (p : Places) (known : Core) → HasCore h p known core → IsPlain h p result (truth known holds) }
{
    if holds {
        return PrimAnswer::Done(core.yes);
    }
    PrimAnswer::Done(core.no)
}

fn small(int: i32) -> PrimAnswer
    requires { IsSmall int }
    ensures { (h : Cells) (p : Places) → IsPlain h p result (Gives (Int int)) }
{
    PrimAnswer::Done(word_of_int(int))
}

fn wide_sum(x: i32, y: i32) -> i64
    requires first { IsSmall x }
    requires second { IsSmall y }
    ensures { result ≡ x +ℤ y }
{
    i64::from(x) + i64::from(y)
}

fn wide_difference(x: i32, y: i32) -> i64
    requires first { IsSmall x }
    requires second { IsSmall y }
    ensures { result ≡ x -ℤ y }
{
    i64::from(x) - i64::from(y)
}

fn wide_product(x: i32, y: i32) -> i64
    requires first { IsSmall x }
    requires second { IsSmall y }
    ensures { result ≡ x *ℤ y }
{
    i64::from(x) * i64::from(y)
}

fn quotient_of(x: i32, y: i32) -> i32
    requires small { IsSmall x }
    requires divides { y ≢ pos 0 }
    ensures { result ≡ int_div x y }
{
    x / y
}

fn remainder_of(x: i32, y: i32) -> i32
    requires small { IsSmall x }
    requires divides { y ≢ pos 0 }
    ensures { result ≡ int_rem x y }
{
    x % y
}

fn quotient(x: i32, y: i32) -> PrimAnswer
    requires { IsSmall x }
    ensures { (h : Cells) (p : Places) → IsPlain h p result (divided int_div x y) }
{
    if y == 0 {
        return PrimAnswer::Fails(ErrorName::DivisionByZero);
    }
    checked(i64::from(quotient_of(x, y)))
}

fn remainder(x: i32, y: i32) -> PrimAnswer
    requires { IsSmall x }
    ensures { (h : Cells) (p : Places) → IsPlain h p result (divided int_rem x y) }
{
    if y == 0 {
        return PrimAnswer::Fails(ErrorName::DivisionByZero);
    }
    checked(i64::from(remainder_of(x, y)))
}

fn operate(core: CoreWords, operation: Operation, x: i32, y: i32) -> PrimAnswer
    requires first { IsSmall x }
    requires second { IsSmall y }
    ensures { (h : Cells) (p : Places) (known : Core) → HasCore h p known core → IsPlain h p result (operated known operation x y) }
{
    match operation {
        Operation::Add => return checked(wide_sum(x, y)),
        Operation::Sub => return checked(wide_difference(x, y)),
        Operation::Mul => return checked(wide_product(x, y)),
        Operation::Div => return quotient(x, y),
        Operation::Mod => return remainder(x, y),
        Operation::And => return small(x & y),
        Operation::Or => return small(x | y),
        Operation::Xor => return small(x ^ y),
        Operation::LT => return truth(core, x < y),
        Operation::LE => return truth(core, x <= y),
        Operation::EQ => return truth(core, x == y),
    }
}

pub fn of_integers(
    core: CoreWords,
    operation: Operation,
    receiver: Word,
    argument: Word,
) -> PrimAnswer
    ensures { (h : Cells) (p : Places) (known : Core) (v u : Value) → HasCore h p known core → IsValue h p v receiver → IsValue h p u argument → AreTagged p
        → IsPlain h p result (of_integers (operated known operation) v (u ∷ [])) }
{
    if !is_int(receiver) || !is_int(argument) {
        return PrimAnswer::Fails(ErrorName::BadType);
    }
    operate(
        core,
        operation,
        int_of_word(receiver),
        int_of_word(argument),
    )
}

#[cfg(test)]
mod tests {
    use super::*;

    const CORE: CoreWords = CoreWords {
        nil: 0x2000_0001,
        yes: 0x2000_0021,
        no: 0x2000_0041,
    };

    const MOST: i32 = 536_870_911;

    const LEAST: i32 = -536_870_912;

    fn done(operation: Operation, x: i32, y: i32, value: i32) -> bool
        requires first { IsSmall x }
        requires second { IsSmall y }
        requires third { IsSmall value }
    {
        of_integers(CORE, operation, word_of_int(x), word_of_int(y))
            == PrimAnswer::Done(word_of_int(value))
    }

    fn fails(operation: Operation, x: i32, y: i32, error: ErrorName) -> bool
        requires first { IsSmall x }
        requires second { IsSmall y }
    {
        of_integers(CORE, operation, word_of_int(x), word_of_int(y)) == PrimAnswer::Fails(error)
    }

    fn tells(operation: Operation, x: i32, y: i32, answer: Word) -> bool
        requires first { IsSmall x }
        requires second { IsSmall y }
    {
        of_integers(CORE, operation, word_of_int(x), word_of_int(y)) == PrimAnswer::Done(answer)
    }

    #[test]
    fn rows_of_integers(rt: HostRuntime) {
        assert!(rt; done(Operation::Add, MOST, LEAST, -1));
        assert!(rt; fails(Operation::Add, MOST, 1, ErrorName::Overflow));
        assert!(rt; fails(Operation::Sub, LEAST, 1, ErrorName::Overflow));
        assert!(rt; done(Operation::Mul, 23_170, -23_170, -536_848_900));
        assert!(rt; fails(Operation::Mul, MOST, MOST, ErrorName::Overflow));
        assert!(rt; done(Operation::Div, -7, 2, -3));
        assert!(rt; fails(Operation::Div, LEAST, -1, ErrorName::Overflow));
        assert!(rt; fails(Operation::Div, LEAST, 0, ErrorName::DivisionByZero));
        assert!(rt; done(Operation::Mod, -7, 2, -1));
        assert!(rt; done(Operation::Mod, LEAST, -1, 0));
        assert!(rt; fails(Operation::Mod, 7, 0, ErrorName::DivisionByZero));
        assert!(rt; done(Operation::And, -4, 7, 4));
        assert!(rt; done(Operation::Or, -4, 1, -3));
        assert!(rt; done(Operation::Xor, -1, MOST, LEAST));
        assert!(rt; tells(Operation::LT, 3, 3, CORE.no));
        assert!(rt; tells(Operation::LE, 3, 3, CORE.yes));
        assert!(rt; tells(Operation::EQ, -1, 1, CORE.no));
    }

    #[test]
    fn types_come_first(rt: HostRuntime) {
        assert!(rt;
            of_integers(CORE, Operation::Div, CORE.nil, 0) == PrimAnswer::Fails(ErrorName::BadType)
        );
        assert!(rt;
            of_integers(CORE, Operation::Div, 0, CORE.nil) == PrimAnswer::Fails(ErrorName::BadType)
        );
    }
}
