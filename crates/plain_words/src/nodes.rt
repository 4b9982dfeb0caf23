//! The words of each kind of node, behind those that there are.
ghost use Rattle.std.specs.Prelude.{◌≡◌, ◌++◌, ◌+◌, ◌-◌, ◌*◌, ◌≤◌, ◌<◌, OnOk};
ghost use Rattle.plain_words.specs.Code.{poll, set_word, constant_code, self_code, read_code, store_code, reach, walk, arguments_code, handed_code, send_code, implied_code, answered_code, is_sum, sum_op, summed_code, primitive_code, return_code, non_local_code, ended_context, fits_code, refer, made_code, block_code};
ghost use Rattle.plain_words.specs.Units.{node_code, restart_code};
ghost use Rattle.plain_words.specs.Translating.{IsShort};

use crate::instructions::{
    NOP, base_of, copy, count, load, offset_of, pend, plus, poll, refer, store, take, with_number,
    with_register,
};
use crate::references::{References, numbered};
use self_terms::{INT_ADD, INT_SUB, Name, Node, OutOfMemory, word_of_int};
use sparc_insn::{Insn, Op3};

// Instructions behind those that there are.
pub(crate) fn put(code: &mut Vec<Insn>, more: &[Insn]) -> Result<(), OutOfMemory>
    ensures { OnOk result (code.new.items ≡ code.old.items ++ more.now) }
{
    code.extend_from_slice(more)
}

// A word of 32 bits into a register.
pub(crate) fn word_into(register: u8, word: u32) -> [Insn; 2]
    ensures { result ≡ set_word register word }
{
    [
        Insn::Sethi {
            rd: register,
            imm: word / 1024,
        },
        with_number(Op3::Or, register, register, (word % 1024) as i32),
    ]
}

fn put_constant(code: &mut Vec<Insn>, locals: u32, k: u32, word: u32) -> Result<(), OutOfMemory>
    requires { locals + k ≤ 512 }
    ensures { OnOk result (code.new.items ≡ code.old.items ++ constant_code locals k word) }
{
    put(code, &word_into(1, word))?;
    put(code, &[pend(1, locals, k), count()])
}

fn put_self(code: &mut Vec<Insn>, locals: u32, k: u32) -> Result<(), OutOfMemory>
    requires { locals + k ≤ 512 }
    ensures { OnOk result (code.new.items ≡ code.old.items ++ self_code locals k) }
{
    put(code, &[pend(24, locals, k), count()])
}

// So many contexts outwards from that in %g1.
fn put_walk(code: &mut Vec<Insn>, up: u8) -> Result<(), OutOfMemory>
    ensures { OnOk result (code.new.items ≡ code.old.items ++ walk up) }
{
    for _at in 0..up {
        put(code, &[load(1, 1, 3)])?;
    }
    Ok(())
}

fn put_reach(code: &mut Vec<Insn>, up: u8) -> Result<(), OutOfMemory>
    ensures { OnOk result (code.new.items ≡ code.old.items ++ reach up) }
{
    if up == 0 {
        return Ok(());
    }
    put(code, &[copy(1, 16)])?;
    put_walk(code, up - 1)
}

fn put_read(
    code: &mut Vec<Insn>,
    owns: bool,
    locals: u32,
    k: u32,
    up: u8,
    slot: u8,
) -> Result<(), OutOfMemory>
    requires { locals + k ≤ 512 }
    ensures { OnOk result (code.new.items ≡ code.old.items ++ read_code owns locals k up slot) }
{
    put_reach(code, up)?;
    let value = load(1, base_of(owns, up), offset_of(owns, up, slot));
    put(code, &[value, pend(1, locals, k), count()])
}

fn put_store(
    code: &mut Vec<Insn>,
    owns: bool,
    locals: u32,
    k: u32,
    up: u8,
    slot: u8,
) -> Result<(), OutOfMemory>
    requires { locals + k ≤ 512 }
    ensures { OnOk result (code.new.items ≡ code.old.items ++ store_code owns locals k up slot) }
{
    put_reach(code, up)?;
    let set = store(5, base_of(owns, up), offset_of(owns, up, slot));
    put(
        code,
        &[take(5, locals, k), set, pend(24, locals, k), count()],
    )
}

// So many arguments, the first of which is number k of the pending values, to the outs from %o1 on.
fn put_arguments(code: &mut Vec<Insn>, locals: u32, k: u32, args: u8) -> Result<(), OutOfMemory>
    requires few { args ≤ 5 }
    requires room { locals + k + 5 ≤ 512 }
    ensures { OnOk result (code.new.items ≡ code.old.items ++ arguments_code 9 locals k args) }
{
    for at in 0..args {
        put(code, &[take(9 + at, locals, k + at as u32)])?;
    }
    Ok(())
}

// A receiver and so many values behind it: the activation's own one, or a stated one.
fn put_handed(
    code: &mut Vec<Insn>,
    implied: bool,
    locals: u32,
    k: u32,
    n: u8,
) -> Result<(), OutOfMemory>
    requires few { n ≤ 5 }
    requires room { locals + k + 6 ≤ 512 }
    ensures { OnOk result (code.new.items ≡ code.old.items ++ handed_code implied locals k n) }
{
    if implied {
        put(code, &[copy(8, 24)])?;
        return put_arguments(code, locals, k, n);
    }
    put(code, &[take(8, locals, k)])?;
    put_arguments(code, locals, k + 1, n)
}

// A message to a stated receiver, number k of the pending values, and the answer in its place.
fn put_send(code: &mut Vec<Insn>, locals: u32, k: u32, args: u8) -> Result<(), OutOfMemory>
    requires few { args ≤ 5 }
    requires room { locals + k + 6 ≤ 512 }
    ensures { OnOk result (code.new.items ≡ code.old.items ++ (send_code 1 locals k args ++ answered_code locals k)) }
{
    put_handed(code, false, locals, k, args)?;
    put(code, &[Insn::Trap { number: 1 }, pend(8, locals, k)])
}

// A message to the activation's own receiver, with the first argument as number k.
fn put_implied(code: &mut Vec<Insn>, locals: u32, k: u32, args: u8) -> Result<(), OutOfMemory>
    requires few { args ≤ 5 }
    requires room { locals + k + 6 ≤ 512 }
    ensures { OnOk result (code.new.items ≡ code.old.items ++ (implied_code 1 locals k args ++ answered_code locals k)) }
{
    put_handed(code, true, locals, k, args)?;
    put(code, &[Insn::Trap { number: 1 }, pend(8, locals, k)])
}

// Whether a primitive is a sum or a difference of integers.
fn is_sum(name: Name, args: u8) -> bool
    ensures { result ≡ is_sum name.0 args }
{
    args == 1 && (name == INT_ADD || name == INT_SUB)
}

fn sum_op(less: bool) -> Op3
    ensures { result ≡ sum_op less }
{
    if less {
        return Op3::TsubCc;
    }
    Op3::TaddCc
}

// The sum or the difference of %o0 and %o1 to %o0, or a service's answer.
fn summed_code(less: bool) -> [Insn; 7]
    ensures { result ≡ summed_code less }
{
    [
        with_register(sum_op(less), 1, 8, 9),
        Insn::Branch {
            annul: false,
            cond: 7,
            disp: 5,
        },
        NOP,
        copy(8, 1),
        Insn::Branch {
            annul: false,
            cond: 8,
            disp: 3,
        },
        count(),
        Insn::Trap { number: 3 },
    ]
}

// A primitive with so many arguments, which with its handler are n values, the first value as number k.
fn put_primitive(
    code: &mut Vec<Insn>,
    name: Name,
    args: u8,
    implied: bool,
    locals: u32,
    k: u32,
    n: u8,
) -> Result<(), OutOfMemory>
    requires few { n ≤ 5 }
    requires room { locals + k + 6 ≤ 512 }
    ensures { OnOk result (code.new.items ≡ code.old.items ++ primitive_code name.0 args implied locals k n) }
{
    put_handed(code, implied, locals, k, n)?;
    if is_sum(name, args) {
        return put(code, &summed_code(name == INT_SUB));
    }
    put(code, &[Insn::Trap { number: 3 }])
}

// And its answer in the place of what it takes.
fn put_answered(
    code: &mut Vec<Insn>,
    name: Name,
    args: u8,
    implied: bool,
    locals: u32,
    k: u32,
    n: u8,
) -> Result<(), OutOfMemory>
    requires few { n ≤ 5 }
    requires room { locals + k + 6 ≤ 512 }
    ensures { OnOk result (code.new.items ≡ code.old.items ++ (primitive_code name.0 args implied locals k n ++ answered_code locals k)) }
{
    put_primitive(code, name, args, implied, locals, k, n)?;
    put(code, &[pend(8, locals, k)])
}

fn put_ended(code: &mut Vec<Insn>, owns: bool) -> Result<(), OutOfMemory>
    ensures { OnOk result (code.new.items ≡ code.old.items ++ ended_context owns) }
{
    if owns {
        return put(code, &[store(0, 17, 7)]);
    }
    Ok(())
}

fn put_return(code: &mut Vec<Insn>, owns: bool, locals: u32, k: u32) -> Result<(), OutOfMemory>
    requires { locals + k ≤ 512 }
    ensures { OnOk result (code.new.items ≡ code.old.items ++ return_code owns locals k) }
{
    put(
        code,
        &[take(24, locals, k), count(), with_number(Op3::Sub, 4, 4, 1)],
    )?;
    put_ended(code, owns)?;
    put(
        code,
        &[
            with_number(Op3::Jmpl, 0, 31, 8),
            with_register(Op3::Restore, 0, 0, 0),
        ],
    )
}

fn put_non_local(code: &mut Vec<Insn>, locals: u32, k: u32) -> Result<(), OutOfMemory>
    requires { locals + k ≤ 512 }
    ensures { OnOk result (code.new.items ≡ code.old.items ++ non_local_code locals k) }
{
    put(code, &[take(8, locals, k), Insn::Trap { number: 4 }])
}

// Service 8 where so much more cost isn't left.
fn fits_code(words: u32) -> [Insn; 7]
    requires { words < 4096 }
    ensures { result ≡ fits_code words }
{
    [
        Insn::Sethi {
            rd: 1,
            imm: 0xC0000,
        },
        load(1, 1, 4),
        with_number(Op3::Add, 5, 3, words as i32),
        with_register(Op3::SubCc, 0, 1, 5),
        Insn::Branch {
            annul: false,
            cond: 13,
            disp: 3,
        },
        NOP,
        Insn::Trap { number: 8 },
    ]
}

// A block with these words of its map and its body's number, at the heap's top, and pended.
fn put_made(
    code: &mut Vec<Insn>,
    locals: u32,
    k: u32,
    map: u32,
    body: u32,
) -> Result<(), OutOfMemory>
    requires { locals + k ≤ 512 }
    ensures { OnOk result (code.new.items ≡ code.old.items ++ made_code locals k map body) }
{
    put(code, &word_into(1, map))?;
    put(code, &[store(1, 6, 0)])?;
    put(code, &word_into(1, body))?;
    put(code, &[store(1, 6, 4), store(17, 6, 8), store(24, 6, 12)])?;
    put(
        code,
        &[
            refer(1),
            pend(1, locals, k),
            plus(6, 16),
            plus(3, 4),
            count(),
        ],
    )
}

fn put_block(
    code: &mut Vec<Insn>,
    locals: u32,
    k: u32,
    map: u32,
    body: u32,
) -> Result<(), OutOfMemory>
    requires { locals + k ≤ 512 }
    ensures { OnOk result (code.new.items ≡ code.old.items ++ block_code locals k map body) }
{
    put(code, &fits_code(4))?;
    put_made(code, locals, k, map, body)
}

// Back over so many words.
fn put_restart(code: &mut Vec<Insn>, back: u32) -> Result<(), OutOfMemory>
    requires some { 0 < back }
    requires few { back ≤ 100000 }
    ensures { OnOk result (code.new.items ≡ code.old.items ++ restart_code back) }
{
    let branch = Insn::Branch {
        annul: false,
        cond: 8,
        disp: -(back as i32),
    };
    put(code, &[branch, count()])
}

// The words of a node behind its poll, which stands `at` words behind that of the first node, over k pending values.
fn put_bare(
    code: &mut Vec<Insn>,
    references: &References,
    owns: bool,
    locals: u32,
    at: u32,
    node: Node,
    k: u32,
) -> Result<(), OutOfMemory>
    requires room { locals + k + 6 ≤ 512 }
    requires near { at < 90000 }
    requires short { IsShort 64 node }
    ensures { OnOk result (code.new.items ≡ code.old.items ++ node_code references.now owns locals at node k) }
{
    match node {
        Node::Int(int) => put_constant(code, locals, k, word_of_int(int)),
        Node::Str(object) => put_constant(code, locals, k, references.word(object)),
        Node::Nil => put_constant(code, locals, k, references.nil),
        Node::SelfRef => put_self(code, locals, k),
        Node::Read { up, slot } => put_read(code, owns, locals, k, up, slot),
        Node::Store { up, slot } => put_store(code, owns, locals, k.saturating_sub(1), up, slot),
        Node::Send(sel) => put_send(
            code,
            locals,
            k.saturating_sub(sel.args as u32 + 1),
            sel.args,
        ),
        Node::SelfSend(sel) => put_implied(
            code,
            locals,
            k.saturating_sub(sel.args as u32),
            sel.args,
        ),
        Node::Resend(sel) => put_implied(code, locals, k.saturating_sub(sel.args as u32), sel.args),
        Node::Directed { sel, .. } => put_implied(
            code,
            locals,
            k.saturating_sub(sel.args as u32),
            sel.args,
        ),
        Node::Drop => put(code, &[count()]),
        Node::Restart => put_restart(code, at + 6),
        Node::Return => put_return(code, owns, locals, k.saturating_sub(1)),
        Node::NonLocal => put_non_local(code, locals, k.saturating_sub(1)),
        Node::End => put_return(code, owns, locals, k.saturating_sub(1)),
        Node::BlockLit(body) => put_block(
            code,
            locals,
            k,
            references.block_map(body),
            numbered(body.0),
        ),
        Node::Prim {
            name,
            args,
            implied,
            handler,
        } => put_answered(
            code,
            name,
            args,
            implied,
            locals,
            k.saturating_sub(args as u32 + (!implied) as u32 + handler as u32),
            args + handler as u8,
        ),
    }
}

// The words of a node, its poll before them.
pub(crate) fn put_node(
    code: &mut Vec<Insn>,
    references: &References,
    owns: bool,
    locals: u32,
    at: u32,
    node: Node,
    k: u32,
) -> Result<(), OutOfMemory>
    requires room { locals + k + 6 ≤ 512 }
    requires near { at < 90000 }
    requires short { IsShort 64 node }
    ensures { OnOk result (code.new.items ≡ code.old.items ++ (poll ++ node_code references.now owns locals at node k)) }
{
    put(code, &poll())?;
    put_bare(code, references, owns, locals, at, node, k)
}
