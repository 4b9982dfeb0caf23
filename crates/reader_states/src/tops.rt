// The innermost frame, where it is of a kind, and the frames around it.
ghost use Rattle.std.specs.Prelude.{Some};
ghost use Rattle.reader_states.specs.Turns.{Gives, body_on, expression_on, list_on, locals_on, message_on, operand_on, slot_on, slots_on};

use crate::frames::{Body, Contents, Expression, Frame, Holder, Message, Operand, Slots, Stop};
use crate::scopes::Scope;
use crate::stack::Stack;

/// The innermost frame is where a slot stands.
pub fn pop_slots(frames: Stack<Frame>) -> Result<(Slots, Stack<Frame>), Stop>
    ensures { Gives result (slots_on frames) }
{
    let mut frames = frames;
    let Some(inner) = frames.pop() else {
        return Err(Stop::BadSyntax);
    };
    match inner {
        Frame::Slots(slots) => return Ok((slots, frames)),
        _ => return Err(Stop::BadSyntax),
    }
}

/// It is a list of slots, but of no block.
pub fn pop_list(frames: Stack<Frame>) -> Result<(Holder, Scope, Stack<Frame>), Stop>
    ensures { Gives result (list_on frames) }
{
    let (slots, frames) = pop_slots(frames)?;
    match slots {
        Slots::List(holder, scope) => return Ok((holder, scope, frames)),
        Slots::Edit => return Err(Stop::BadSyntax),
    }
}

/// The innermost frame is the list of slots of a block.
pub fn pop_locals(frames: Stack<Frame>) -> Result<(Scope, Stack<Frame>), Stop>
    ensures { Gives result (locals_on frames) }
{
    let mut frames = frames;
    let Some(inner) = frames.pop() else {
        return Err(Stop::BadSyntax);
    };
    match inner {
        Frame::Locals(scope) => return Ok((scope, frames)),
        _ => return Err(Stop::BadSyntax),
    }
}

/// The innermost frame is what a slot holds.
pub fn pop_slot(frames: Stack<Frame>) -> Result<(Contents, Stack<Frame>), Stop>
    ensures { Gives result (slot_on frames) }
{
    let mut frames = frames;
    let Some(inner) = frames.pop() else {
        return Err(Stop::BadSyntax);
    };
    match inner {
        Frame::Slot(contents) => return Ok((contents, frames)),
        _ => return Err(Stop::BadSyntax),
    }
}

/// The innermost frame is whose code it is.
pub fn pop_body(frames: Stack<Frame>) -> Result<(Body, Stack<Frame>), Stop>
    ensures { Gives result (body_on frames) }
{
    let mut frames = frames;
    let Some(inner) = frames.pop() else {
        return Err(Stop::BadSyntax);
    };
    match inner {
        Frame::Body(body) => return Ok((body, frames)),
        _ => return Err(Stop::BadSyntax),
    }
}

/// The innermost frame is where an expression stands.
pub fn pop_expression(frames: Stack<Frame>) -> Result<(Expression, Stack<Frame>), Stop>
    ensures { Gives result (expression_on frames) }
{
    let mut frames = frames;
    let Some(inner) = frames.pop() else {
        return Err(Stop::BadSyntax);
    };
    match inner {
        Frame::Expression(expression) => return Ok((expression, frames)),
        _ => return Err(Stop::BadSyntax),
    }
}

/// The innermost frame is a message whose argument is open.
pub fn pop_message(frames: Stack<Frame>) -> Result<(Message, Stack<Frame>), Stop>
    ensures { Gives result (message_on frames) }
{
    let mut frames = frames;
    let Some(inner) = frames.pop() else {
        return Err(Stop::BadSyntax);
    };
    match inner {
        Frame::Argument(message) => return Ok((message, frames)),
        _ => return Err(Stop::BadSyntax),
    }
}

/// The operand of which a unary is the last, if it is one, and the frames around it.
pub fn pop_operand(frames: Stack<Frame>) -> Result<(Option<Operand>, Stack<Frame>), Stop>
    ensures { Gives result (Some (operand_on frames)) }
{
    let mut frames = frames;
    let Some(inner) = frames.pop() else {
        return Ok((None, frames));
    };
    if let Frame::Right(operand) = inner {
        return Ok((Some(operand), frames));
    }
    frames.push(inner)?;
    Ok((None, frames))
}
