// Reads a sign of code: where a unary is wanted, where there is one, behind a delegate, and behind the period of a return.
ghost use Rattle.std.specs.Prelude.{◌≡◌, Some};
ghost use Rattle.self_grammar.specs.Parts.{but_last};
ghost use Rattle.self_grammar.specs.Spelling.{is_implied, primitive_node};
ghost use Rattle.reader_states.specs.Turns.{event_in, listed, Turns, Gives};
ghost use Rattle.code_reader.specs.CodeTurns.{block_event, empty_event, body_event, returned_event, breaking, opened, further, message_node, operator_node, alone, message_turn, implied_turn, body_end, name_node, primary, delegate_turn, caret_turn, block_bar, bar_turn, empty_end, stopped, entered, begun, bound, same_role, operand_awaited, operator_turn, block_turn, group_turn, keyword_turn, part_turn, capital_turn, gone_further, unary_node, unwound, statement_end, return_end, group_end, expression_end, terminated, gone_on, delegate_operator, behind_delegate, ended_turn};

use reader_states::{
    At, AtCode, AtEnd, AtLocal, Body, Counts, Event, Expression, Frame, Message, Operand, Owner,
    Post, Scope, Stack, Stop, Turn, closing, makes, opening, pop_body, pop_expression, pop_message,
    pop_operand, quiet, simply, too_many_arguments, within,
};
use self_grammar::{
    Breach, Item, Limits, Made, Reserved, Role, Spot, Symbol, Target, TextNode, Words,
};
use std::alloc::Global;

/// A sign that ends a statement or a body.
#[derive(Clone, Copy)]
pub enum Terminator {
    Period,
    Paren,
    Bracket,
}

// The bracket that opens a block.
fn block_event(spot: Spot) -> Event
    ensures { event_in result ≡ block_event spot }
{
    let node = TextNode::Block;
    Event {
        made: Some(Made { node, spot }),
        says: Some(Item::Opened(spot)),
        opens: true,
        ..quiet()
    }
}

// What closes a body: an empty one,
fn empty_event(spot: Spot) -> Event
    ensures { event_in result ≡ empty_event spot }
{
    let node = TextNode::Nil;
    let end = TextNode::End;
    Event {
        made: Some(Made { node, spot }),
        made_too: Some(Made { node: end, spot }),
        says: Some(Item::ClosedBody),
        leaves: true,
        ..closing()
    }
}

// one behind a statement,
fn body_event(spot: Spot) -> Event
    ensures { event_in result ≡ body_event spot }
{
    let node = TextNode::End;
    Event {
        made: Some(Made { node, spot }),
        says: Some(Item::ClosedBody),
        leaves: true,
        ..closing()
    }
}

// and one behind a return.
fn returned_event() -> Event
    ensures { event_in result ≡ returned_event }
{
    Event {
        says: Some(Item::ClosedBody),
        leaves: true,
        ..closing()
    }
}

// Breaks a rule, or none.
fn breaking(broken: Option<Breach>) -> Event
    ensures { event_in result ≡ breaking (listed broken) }
{
    Event { broken, ..quiet() }
}

// The name without its last part.
fn but_last(words: Words) -> Words
    ensures { result ≡ but_last words }
{
    match words {
        Words::One(_) => words,
        Words::Two(a, _) => Words::One(a),
        Words::Three(a, b, _) => Words::Two(a, b),
        Words::Four(a, b, c, _) => Words::Three(a, b, c),
        Words::Five(a, b, c, d, _) => Words::Four(a, b, c, d),
    }
}

// Whether no value is written before a message to it.
fn is_implied(to: Target) -> bool
    ensures { result ≡ is_implied to }
{
    match to {
        Target::Given => false,
        Target::Implied => true,
        Target::Parents => true,
        Target::Parent(_) => true,
    }
}

// The node of a primitive.
fn primitive_node(
    to: Target,
    words: Words,
    count: usize,
    base: Option<u32>,
    handled: bool,
) -> TextNode
    ensures { result ≡ primitive_node to words count base handled }
{
    let implied = is_implied(to);
    if let Words::One(_) = words {
        if let Some(name) = base {
            return TextNode::Primitive {
                words: Words::One(name),
                args: 0,
                implied,
                handler: true,
            };
        }
        return TextNode::Primitive {
            words,
            args: 1,
            implied,
            handler: false,
        };
    }
    if handled {
        return TextNode::Primitive {
            words: but_last(words),
            args: count.saturating_sub(1),
            implied,
            handler: true,
        };
    }
    TextNode::Primitive {
        words,
        args: count,
        implied,
        handler: false,
    }
}

// The node of a keyword message.
fn message_node(message: Message) -> Made
    ensures { result ≡ message_node message }
{
    let args = message.words.count();
    let spot = message.spot;
    if let Some(base) = message.base {
        let node = primitive_node(message.to, message.words, args, base, message.handled);
        return Made { node, spot };
    }
    let node = TextNode::Message {
        to: message.to,
        words: message.words,
        args,
    };
    Made { node, spot }
}

// The node of a message with one argument behind an operator.
fn operator_node(to: Target, operator: u32, spot: Spot) -> Made
    ensures { result ≡ operator_node to operator spot }
{
    let node = TextNode::Message {
        to,
        words: Words::One(operator),
        args: 1,
    };
    Made { node, spot }
}

// A message at its first word.
fn opened(to: Target, name: u32, base: Option<Option<u32>>, spot: Spot) -> Message
    ensures { result ≡ opened to name base spot }
{
    Message {
        to,
        words: Words::One(name),
        base,
        handled: false,
        spot,
    }
}

// A message with a part more.
fn further(message: Message, name: u32, handles: bool) -> Message
    ensures { result ≡ further message name handles }
{
    Message {
        words: message.words.followed_by(name),
        handled: handles,
        ..message
    }
}

// The frames, unless the innermost has operands.
fn alone(frames: Stack<Frame>) -> Result<Stack<Frame>, Stop>
    ensures { Gives result (alone frames) }
{
    let (operand, frames) = pop_operand(frames)?;
    match operand {
        None => return Ok(frames),
        Some(_) => return Err(Stop::BadSyntax),
    }
}

// A keyword message begins, whose receiver is read,
fn begin_message(frames: Stack<Frame>, counts: Counts, message: Message) -> Result<Turn, Stop>
    ensures { Turns result (message_turn frames counts message) }
{
    within(
        counts,
        opening(),
        At::Code(AtCode::Wanting),
        Frame::Argument(message),
        frames,
    )
}

// or that has none.
fn begin_implied(frames: Stack<Frame>, counts: Counts, message: Message) -> Result<Turn, Stop>
    ensures { Turns result (implied_turn frames counts message) }
{
    let frames = alone(frames)?;
    begin_message(frames, counts, message)
}

// The end of a body.
fn end_body(
    frames: Stack<Frame>,
    counts: Counts,
    event: Event,
    terminator: Terminator,
) -> Result<Turn, Stop>
    ensures { Turns result (body_end frames counts (event_in event) terminator) }
{
    let (body, frames) = pop_body(frames)?;
    match (body, terminator) {
        (Body::Method, Terminator::Paren) => {
            return simply(counts, event, At::Behind(AtEnd::Method), frames);
        }
        (Body::Block { .. }, Terminator::Bracket) => {
            return simply(counts, event, At::Code(AtCode::Having), frames);
        }
        _ => return Err(Stop::BadSyntax),
    }
}

// The node of a name with no receiver written.
fn name_node(name: u32, reserved: Reserved) -> TextNode
    ensures { result ≡ name_node name reserved }
{
    match reserved {
        Reserved::Itself => return TextNode::Itself,
        _ => {
            return TextNode::Message {
                to: Target::Implied,
                words: Words::One(name),
                args: 0,
            };
        }
    }
}

// The node of a unary of one sign.
fn primary(symbol: Symbol) -> Option<TextNode>
    ensures { result ≡ primary symbol }
{
    match symbol {
        Symbol::Integer(value) => return Some(TextNode::Integer(value)),
        Symbol::Text { start, end } => return Some(TextNode::Text { start, end }),
        Symbol::Name { name, reserved, .. } => return Some(name_node(name, reserved)),
        Symbol::Primitive(name) => {
            return Some(TextNode::Primitive {
                words: Words::One(name),
                args: 0,
                implied: true,
                handler: false,
            });
        }
        Symbol::Restart => return Some(TextNode::Restart),
        _ => return None,
    }
}

fn begin_delegate(
    frames: Stack<Frame>,
    counts: Counts,
    name: u32,
    reserved: Reserved,
    spot: Spot,
) -> Result<Turn, Stop>
    ensures { Turns result (delegate_turn frames counts name reserved spot) }
{
    match reserved {
        Reserved::Free => {
            let to = Target::Parent(name);
            return simply(
                counts,
                quiet(),
                At::Code(AtCode::Delegated { to, spot }),
                frames,
            );
        }
        Reserved::Itself => return Err(Stop::BadSyntax),
        Reserved::Resend => {
            let to = Target::Parents;
            return simply(
                counts,
                quiet(),
                At::Code(AtCode::Delegated { to, spot }),
                frames,
            );
        }
    }
}

fn begin_return(frames: Stack<Frame>, counts: Counts, spot: Spot) -> Result<Turn, Stop>
    ensures { Turns result (caret_turn frames counts spot) }
{
    let (expression, frames) = pop_expression(frames)?;
    let Expression::Statement { .. } = expression else {
        return Err(Stop::BadSyntax);
    };
    within(
        counts,
        quiet(),
        At::Code(AtCode::Wanting),
        Frame::Expression(Expression::Returning(spot)),
        frames,
    )
}

// The bar behind a bracket.
fn open_bars(alloc: Global, frames: Stack<Frame>, counts: Counts) -> Result<Turn, Stop>
    ensures { Turns result (block_bar frames counts) }
{
    let (body, frames) = pop_body(frames)?;
    let Body::Block { barred: false } = body else {
        return Err(Stop::BadSyntax);
    };
    let scope = Scope::open(alloc, Owner::Activation)?;
    let mut frames = frames;
    frames.push(Frame::Body(body))?;
    within(
        counts,
        quiet(),
        At::Local(AtLocal::Slot),
        Frame::Locals(scope),
        frames,
    )
}

// A bar where a unary is wanted.
fn begin_bars(alloc: Global, frames: Stack<Frame>, counts: Counts) -> Result<Turn, Stop>
    ensures { Turns result (bar_turn frames counts) }
{
    let (expression, frames) = pop_expression(frames)?;
    let Expression::Statement { later: false } = expression else {
        return Err(Stop::BadSyntax);
    };
    open_bars(alloc, frames, counts)
}

// The end of a block that has no code.
fn end_empty(
    frames: Stack<Frame>,
    counts: Counts,
    terminator: Terminator,
    spot: Spot,
) -> Result<Turn, Stop>
    ensures { Turns result (empty_end frames counts terminator spot) }
{
    let (body, frames) = pop_body(frames)?;
    match (body, terminator) {
        (Body::Block { .. }, Terminator::Bracket) => {
            return simply(counts, empty_event(spot), At::Code(AtCode::Having), frames);
        }
        _ => return Err(Stop::BadSyntax),
    }
}

// The end of code behind a period.
fn end_stopped(
    frames: Stack<Frame>,
    counts: Counts,
    terminator: Terminator,
    spot: Spot,
) -> Result<Turn, Stop>
    ensures { Turns result (stopped frames counts terminator spot) }
{
    let (expression, frames) = pop_expression(frames)?;
    let Expression::Statement { later } = expression else {
        return Err(Stop::BadSyntax);
    };
    if !later {
        return end_empty(frames, counts, terminator, spot);
    }
    let mut counts = counts;
    counts.forget();
    end_body(frames, counts, body_event(spot), terminator)
}

// A block opens.
fn begin_block(frames: Stack<Frame>, counts: Counts, spot: Spot) -> Result<Turn, Stop>
    ensures { Turns result (block_turn frames counts spot) }
{
    let mut frames = frames;
    frames.push(Frame::Body(Body::Block { barred: false }))?;
    frames.push(Frame::Expression(Expression::Statement { later: false }))?;
    Ok(Turn {
        counts,
        event: block_event(spot),
        post: Post::Enter,
        at: At::Code(AtCode::Wanting),
        frames,
    })
}

fn begin_group(frames: Stack<Frame>, counts: Counts) -> Result<Turn, Stop>
    ensures { Turns result (group_turn frames counts) }
{
    within(
        counts,
        opening(),
        At::Code(AtCode::Wanting),
        Frame::Expression(Expression::Group),
        frames,
    )
}

// What is no unary of one sign.
fn enter(
    alloc: Global,
    frames: Stack<Frame>,
    counts: Counts,
    symbol: Symbol,
    spot: Spot,
) -> Result<Turn, Stop>
    ensures { Turns result (entered frames counts symbol spot) }
{
    match symbol {
        Symbol::Keyword(name) => {
            let message = opened(Target::Implied, name, None, spot);
            return begin_implied(frames, counts, message);
        }
        Symbol::PrimitiveKeyword { name, handled } => {
            let message = opened(Target::Implied, name, Some(handled), spot);
            return begin_implied(frames, counts, message);
        }
        Symbol::Delegate { name, reserved } => {
            return begin_delegate(frames, counts, name, reserved, spot);
        }
        Symbol::OpenParen => return begin_group(frames, counts),
        Symbol::OpenBracket => return begin_block(frames, counts, spot),
        Symbol::Caret => return begin_return(frames, counts, spot),
        Symbol::Bar => return begin_bars(alloc, frames, counts),
        Symbol::CloseParen => return end_stopped(frames, counts, Terminator::Paren, spot),
        Symbol::CloseBracket => return end_stopped(frames, counts, Terminator::Bracket, spot),
        _ => return Err(Stop::BadSyntax),
    }
}

/// Reads a sign where a unary is wanted.
pub fn begin(
    alloc: Global,
    frames: Stack<Frame>,
    counts: Counts,
    symbol: Symbol,
    spot: Spot,
) -> Result<Turn, Stop>
    ensures { Turns result (begun frames counts symbol spot) }
{
    if let Some(node) = primary(symbol) {
        return simply(counts, makes(spot, node), At::Code(AtCode::Having), frames);
    }
    enter(alloc, frames, counts, symbol, spot)
}

// The frames without the operands of which a unary is the last, whose node is due.
fn bind(frames: Stack<Frame>, counts: Counts) -> Result<(Stack<Frame>, Counts), Stop>
    ensures { Gives result (Some (bound frames counts)) }
{
    let (operand, frames) = pop_operand(frames)?;
    let Some(operand) = operand else {
        return Ok((frames, counts));
    };
    let mut counts = counts;
    counts.owe(operand.made)?;
    Ok((frames, counts))
}

fn same_role(a: Role, b: Role) -> bool
    ensures { result ≡ same_role a b }
{
    match (a, b) {
        (Role::Equals, Role::Equals) => true,
        (Role::Arrow, Role::Arrow) => true,
        (Role::Star, Role::Star) => true,
        (Role::Other, Role::Other) => true,
        _ => false,
    }
}

// An operator, and the node that the end of the operand behind it makes.
fn await_operand(
    frames: Stack<Frame>,
    counts: Counts,
    operator: u32,
    role: Role,
    made: Made,
) -> Result<Turn, Stop>
    ensures { Turns result (operand_awaited frames counts operator role made) }
{
    within(
        counts,
        quiet(),
        At::Code(AtCode::Wanting),
        Frame::Right(Operand {
            operator,
            role,
            made,
        }),
        frames,
    )
}

// An operator behind a unary, among operands that have the same one, or the first.
fn add_operator(
    frames: Stack<Frame>,
    counts: Counts,
    operator: u32,
    role: Role,
    spot: Spot,
) -> Result<Turn, Stop>
    ensures { Turns result (operator_turn frames counts operator role spot) }
{
    let (operand, frames) = pop_operand(frames)?;
    let Some(before) = operand else {
        let made = operator_node(Target::Given, operator, spot);
        return await_operand(frames, counts, operator, role, made);
    };
    if before.operator != operator || !same_role(before.role, role) {
        return Err(Stop::BadSyntax);
    }
    let mut counts = counts;
    counts.owe(before.made)?;
    let made = operator_node(Target::Given, before.operator, spot);
    await_operand(frames, counts, before.operator, before.role, made)
}

// A keyword behind a unary.
fn add_keyword(frames: Stack<Frame>, counts: Counts, message: Message) -> Result<Turn, Stop>
    ensures { Turns result (keyword_turn frames counts message) }
{
    let (frames, counts) = bind(frames, counts)?;
    begin_message(frames, counts, message)
}

// A further part of the innermost message.
fn add_part(
    limits: Limits,
    frames: Stack<Frame>,
    counts: Counts,
    name: u32,
    handles: bool,
) -> Result<Turn, Stop>
    ensures { Turns result (part_turn limits frames counts name handles) }
{
    let (message, frames) = pop_message(frames)?;
    let event = breaking(too_many_arguments(limits, message.words.count()));
    within(
        counts,
        event,
        At::Code(AtCode::Wanting),
        Frame::Argument(further(message, name, handles)),
        frames,
    )
}

// A capital keyword behind a unary.
fn add_capital(
    limits: Limits,
    frames: Stack<Frame>,
    counts: Counts,
    name: u32,
    handles: bool,
) -> Result<Turn, Stop>
    ensures { Turns result (capital_turn limits frames counts name handles) }
{
    let (frames, counts) = bind(frames, counts)?;
    add_part(limits, frames, counts, name, handles)
}

// All messages that are open end.
#[tactic(auto, unfolding(crate::specs::CodeTurns::unwound))]
fn unwind(frames: Stack<Frame>, counts: Counts) -> Result<(Expression, Stack<Frame>, Counts), Stop>
    ensures { Gives result (unwound frames counts) }
{
    let mut frames = frames;
    let mut counts = counts;
    'messages: loop {
        let Some(inner) = frames.pop() else {
            return Err(Stop::BadSyntax);
        };
        match inner {
            Frame::Argument(message) => {
                counts.owe(message_node(message))?;
                counts.finish();
            }
            Frame::Right(operand) => {
                counts.owe(operand.made)?;
            }
            Frame::Expression(expression) => return Ok((expression, frames, counts)),
            _ => return Err(Stop::BadSyntax),
        }
    }
}

// The end of a statement,
fn end_statement(
    frames: Stack<Frame>,
    counts: Counts,
    terminator: Terminator,
    spot: Spot,
) -> Result<Turn, Stop>
    ensures { Turns result (statement_end frames counts terminator spot) }
{
    let Terminator::Period = terminator else {
        return end_body(frames, counts, body_event(spot), terminator);
    };
    let mut frames = frames;
    frames.push(Frame::Expression(Expression::Statement { later: true }))?;
    let node = TextNode::Drop;
    Ok(Turn {
        counts,
        event: quiet(),
        post: Post::Owe(Made { node, spot }),
        at: At::Code(AtCode::Wanting),
        frames,
    })
}

// of what is returned,
fn end_return(frames: Stack<Frame>, counts: Counts, terminator: Terminator) -> Result<Turn, Stop>
    ensures { Turns result (return_end frames counts terminator) }
{
    let Terminator::Period = terminator else {
        return end_body(frames, counts, returned_event(), terminator);
    };
    simply(counts, quiet(), At::Code(AtCode::Ended), frames)
}

// and of what stands in parentheses.
fn end_group(frames: Stack<Frame>, counts: Counts, terminator: Terminator) -> Result<Turn, Stop>
    ensures { Turns result (group_end frames counts terminator) }
{
    let Terminator::Paren = terminator else {
        return Err(Stop::BadSyntax);
    };
    simply(counts, closing(), At::Code(AtCode::Having), frames)
}

// The end of an expression, by where it stands.
fn end_expression(
    expression: Expression,
    frames: Stack<Frame>,
    counts: Counts,
    terminator: Terminator,
    spot: Spot,
) -> Result<Turn, Stop>
    ensures { Turns result (expression_end expression frames counts terminator spot) }
{
    match expression {
        Expression::Statement { .. } => return end_statement(frames, counts, terminator, spot),
        Expression::Returning(caret) => {
            let mut counts = counts;
            let node = TextNode::Return;
            counts.owe(Made { node, spot: caret })?;
            return end_return(frames, counts, terminator);
        }
        Expression::Group => return end_group(frames, counts, terminator),
    }
}

// A sign that ends the expression around a unary.
fn terminate(
    frames: Stack<Frame>,
    counts: Counts,
    terminator: Terminator,
    spot: Spot,
) -> Result<Turn, Stop>
    ensures { Turns result (terminated frames counts terminator spot) }
{
    let (expression, frames, counts) = unwind(frames, counts)?;
    end_expression(expression, frames, counts, terminator, spot)
}

// A sign behind a unary that is no message without arguments.
fn go_further(
    limits: Limits,
    frames: Stack<Frame>,
    counts: Counts,
    symbol: Symbol,
    spot: Spot,
) -> Result<Turn, Stop>
    ensures { Turns result (gone_further limits frames counts symbol spot) }
{
    match symbol {
        Symbol::Operator { name, role } => {
            return add_operator(frames, counts, name, role, spot);
        }
        Symbol::Keyword(name) => {
            return add_keyword(frames, counts, opened(Target::Given, name, None, spot));
        }
        Symbol::PrimitiveKeyword { name, handled } => {
            return add_keyword(
                frames,
                counts,
                opened(Target::Given, name, Some(handled), spot),
            );
        }
        Symbol::CapitalKeyword { name, handles } => {
            return add_capital(limits, frames, counts, name, handles);
        }
        Symbol::Period => return terminate(frames, counts, Terminator::Period, spot),
        Symbol::CloseParen => return terminate(frames, counts, Terminator::Paren, spot),
        Symbol::CloseBracket => return terminate(frames, counts, Terminator::Bracket, spot),
        _ => return Err(Stop::BadSyntax),
    }
}

// The node of a message without arguments behind a unary.
fn unary_node(symbol: Symbol) -> Option<TextNode>
    ensures { result ≡ unary_node symbol }
{
    match symbol {
        Symbol::Name { name, .. } => {
            return Some(TextNode::Message {
                to: Target::Given,
                words: Words::One(name),
                args: 0,
            });
        }
        Symbol::Primitive(name) => {
            return Some(TextNode::Primitive {
                words: Words::One(name),
                args: 0,
                implied: false,
                handler: false,
            });
        }
        _ => return None,
    }
}

/// Reads a sign behind a unary.
pub fn go_on(
    limits: Limits,
    frames: Stack<Frame>,
    counts: Counts,
    symbol: Symbol,
    spot: Spot,
) -> Result<Turn, Stop>
    ensures { Turns result (gone_on limits frames counts symbol spot) }
{
    if let Some(node) = unary_node(symbol) {
        return simply(counts, makes(spot, node), At::Code(AtCode::Having), frames);
    }
    go_further(limits, frames, counts, symbol, spot)
}

// An operator behind a delegate, which begins at this place.
fn delegate_operator(
    to: Target,
    begin: Spot,
    frames: Stack<Frame>,
    counts: Counts,
    operator: u32,
    role: Role,
) -> Result<Turn, Stop>
    ensures { Turns result (delegate_operator to begin frames counts operator role) }
{
    let frames = alone(frames)?;
    let made = operator_node(to, operator, begin);
    await_operand(frames, counts, operator, role, made)
}

/// Reads a sign behind a delegate, which begins at this place.
pub fn follow_delegate(
    to: Target,
    begin: Spot,
    frames: Stack<Frame>,
    counts: Counts,
    symbol: Symbol,
    spot: Spot,
) -> Result<Turn, Stop>
    ensures { Turns result (behind_delegate to begin frames counts symbol spot) }
{
    match symbol {
        Symbol::Name { name, .. } => {
            let node = TextNode::Message {
                to,
                words: Words::One(name),
                args: 0,
            };
            return simply(counts, makes(begin, node), At::Code(AtCode::Having), frames);
        }
        Symbol::Operator { name, role } => {
            return delegate_operator(to, begin, frames, counts, name, role);
        }
        Symbol::Keyword(name) => {
            return begin_implied(frames, counts, opened(to, name, None, begin));
        }
        _ => return Err(Stop::BadSyntax),
    }
}

/// Reads a sign behind the period of a return.
pub fn end(frames: Stack<Frame>, counts: Counts, symbol: Symbol, spot: Spot) -> Result<Turn, Stop>
    ensures { Turns result (ended_turn frames counts symbol spot) }
{
    match symbol {
        Symbol::CloseParen => {
            return end_body(frames, counts, returned_event(), Terminator::Paren);
        }
        Symbol::CloseBracket => {
            return end_body(frames, counts, returned_event(), Terminator::Bracket);
        }
        _ => return Err(Stop::BadSyntax),
    }
}
