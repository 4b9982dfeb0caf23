//! Activations as they are shown, by their frames in words.
ghost use Rattle.std.specs.Prelude.{◌≡◌, ◌<◌, ◌≤◌, ◌+◌, ◌*◌, ◌/◌, ◌%◌, ◌++◌, ◌∷◌, [], ℕ, IsTrue, ◌↔◌, length, map, reverse};
ghost use Rattle.self_terms.specs.Words.{IsInt};
ghost use Rattle.sparc_store.specs.Words.{word_at, HasWord};
ghost use Rattle.object_maps.specs.Layout.{map_at, number_at};
ghost use Rattle.source_model.specs.Soundness.{body_in, room};
ghost use Rattle.shown_frames.specs.Listed.{words_up};
ghost use Rattle.shown_frames.specs.Showing.{position_at, mark_at, is_block_map, value_shown, maker_shown, local_words, act_shown, acts_shown};
ghost use Rattle.plain_words.specs.Translating.{CanTranslate};
ghost use Rattle.plain_host.specs.Hosted.{host};

use crate::frames::{FrameList, FrameWords};
use object_maps::Maps;
use plain_host::Hosting;
use self_terms::{BodyId, MapId, Name, int_of_word, is_int};
use session_text::{Shown, ShownValue, ValueList};

// Whether a word of a region has an address.
fn is_word(at: u64) -> bool
    ensures { IsTrue result ↔ HasWord at }
{
    if at % 4 != 0 {
        return false;
    }
    if 0x1000_0000 <= at && at < 0x1200_0000 {
        return true;
    }
    if 0x2000_0000 <= at && at < 0x22C0_0000 {
        return true;
    }
    if 0x3000_0000 <= at && at < 0x3000_1000 {
        return true;
    }
    0x4000_0000 <= at && at < 0x4800_0000 && at % 0x0200_0000 < 16_781_312
}

// The word at an address, 0 where no word of a region has it.
fn word_there(hosting: &Hosting, at: u64) -> u32
    ensures { result ≡ word_at (host hosting.now).machine.memory at }
{
    if is_word(at) {
        return hosting.word(at as u32);
    }
    0
}

// The position of the frame of a mark.
fn position_at(frames: &FrameList, mark: u32) -> u32
    ensures { result ≡ position_at frames.now mark }
{
    if mark == 0 {
        return 0;
    }
    let count = frames.len();
    for k in 0..count {
        if frames.at(k).mark() == mark {
            return (count - k) as u32;
        }
    }
    0
}

// The mark of a context, by the reference to it.
fn mark_at(hosting: &Hosting, context: u32) -> u32
    ensures { result ≡ mark_at (host hosting.now).machine.memory context }
{
    word_there(hosting, context as u64 + 7)
}

// The number of an object, by the reference to it.
fn number_of(hosting: &Hosting, object: u32) -> u32
    ensures { result ≡ number_at (host hosting.now).machine.memory object }
{
    word_there(hosting, object as u64 + 3) / 4
}

// Whether a map is that of blocks.
fn is_block_map(maps: &Maps, map: u32) -> bool
    ensures { result ≡ is_block_map maps.now map }
{
    if map < 3 {
        return false;
    }
    if map as usize >= maps.len() {
        return false;
    }
    maps.slot_of(MapId(map), Name(0)).is_some()
}

/// A value that no activation is beside, as the answer of an activity, by its word. Takes no memory.
pub fn value_alone(hosting: &Hosting, word: u32) -> ShownValue
    ensures { result ≡ value_shown (host hosting.now).maps (host hosting.now).machine.memory [] word }
{
    if is_int(word) {
        return ShownValue::Int(int_of_word(word));
    }
    let map = word_there(hosting, word as u64 - 1) / 4;
    if !is_block_map(hosting.maps(), map) {
        return ShownValue::Object(number_of(hosting, word));
    }
    ShownValue::Block {
        body: BodyId(number_of(hosting, word)),
        maker: 0,
    }
}

// A value beside activations, by its word.
fn value_of(hosting: &Hosting, frames: &FrameList, word: u32) -> ShownValue
    ensures { result ≡ value_shown (host hosting.now).maps (host hosting.now).machine.memory frames.now word }
{
    match value_alone(hosting, word) {
        ShownValue::Block { body, maker: _ } => ShownValue::Block {
            body,
            maker: position_at(
                frames,
                mark_at(hosting, word_there(hosting, word as u64 + 7)),
            ),
        },
        ShownValue::Int(integer) => ShownValue::Int(integer),
        ShownValue::Object(object) => ShownValue::Object(object),
    }
}

// The position of a maker, by the reference to its context.
fn maker_of(hosting: &Hosting, frames: &FrameList, outer: u32) -> u32
    ensures { result ≡ maker_shown (host hosting.now).machine.memory frames.now outer }
{
    if outer == 0 {
        return 0;
    }
    position_at(frames, mark_at(hosting, outer))
}

// The values of words.
fn put_words(hosting: &Hosting, frames: &FrameList, words: &[u32], into: &mut ValueList)
    requires { length words.now ≤ 79 }
    ensures values { into.new ≡ map (value_shown (host hosting.now).maps (host hosting.now).machine.memory frames.now) words.now }
    ensures few { length into.new ≤ 79 }
{
    into.clear();
    for word in words {
        into.push(value_of(hosting, frames, *word));
    }
}

// Those of words in reverse order.
fn put_reversed(hosting: &Hosting, frames: &FrameList, words: &[u32], into: &mut ValueList)
    requires { length words.now ≤ 79 }
    ensures values { into.new ≡ map (value_shown (host hosting.now).maps (host hosting.now).machine.memory frames.now) (reverse words.now) }
    ensures few { length into.new ≤ 79 }
{
    into.clear();
    for j in 0..words.len() {
        into.push(value_of(hosting, frames, words[words.len() - 1 - j]));
    }
}

// Those of so many words of memory from an address on.
fn put_from(hosting: &Hosting, frames: &FrameList, at: u64, count: u32, into: &mut ValueList)
    requires low { at < 8589934592 }
    requires few { count ≤ 79 }
    ensures values { into.new ≡ map (value_shown (host hosting.now).maps (host hosting.now).machine.memory frames.now) (words_up (host hosting.now).machine.memory at count) }
    ensures few { length into.new ≤ 79 }
{
    into.clear();
    for j in 0..count {
        into.push(value_of(hosting, frames, word_there(hosting, at + 4 * j as u64)));
    }
}

// How many arguments and locals an activation of a body has.
fn room_of(hosting: &Hosting, b: u32) -> u32
    requires { (k : ℕ) → CanTranslate (body_in (host hosting.now).bodies k) }
    ensures room { result ≡ room (body_in (host hosting.now).bodies b) }
    ensures few { result ≤ 79 }
{
    let number = if b == 0 { 1 } else { b };
    if number > hosting.bodies() {
        return 0;
    }
    let body = hosting.body(number);
    body.arguments.as_slice().len() as u32 + body.locals.as_slice().len() as u32
}

// The arguments and locals of an activation.
fn put_locals(hosting: &Hosting, frames: &FrameList, frame: &FrameWords, into: &mut ValueList)
    requires { (k : ℕ) → CanTranslate (body_in (host hosting.now).bodies k) }
    ensures values { into.new ≡ map (value_shown (host hosting.now).maps (host hosting.now).machine.memory frames.now) (local_words (host hosting.now).bodies (host hosting.now).machine.memory frame.now) }
    ensures few { length into.new ≤ 79 }
{
    if frame.context() == 0 {
        put_words(hosting, frames, frame.locals(), into);
        return;
    }
    put_from(
        hosting,
        frames,
        frame.context() as u64 + 15,
        room_of(hosting, frame.body()),
        into,
    );
}

// One younger activation.
fn put_act(
    hosting: &Hosting,
    frames: &FrameList,
    frame: &FrameWords,
    locals: &mut ValueList,
    pending: &mut ValueList,
    into: &mut Shown,
)
    requires translates { (k : ℕ) → CanTranslate (body_in (host hosting.now).bodies k) }
    requires room { length into.old < 4096 }
    ensures { into.new ≡ into.old ++ act_shown (host hosting.now).maps (host hosting.now).bodies (host hosting.now).machine.memory frames.now frame.now ∷ [] }
{
    put_locals(hosting, frames, frame, locals);
    put_reversed(hosting, frames, frame.pending(), pending);
    into.push(
        BodyId(frame.body()),
        frame.next(),
        value_of(hosting, frames, frame.receiver()),
        number_of(hosting, frame.holder()),
        maker_of(hosting, frames, frame.outer()),
        locals.as_slice(),
        pending.as_slice(),
    );
}

/// The activations of an activity, by its frames. `locals` and `pending` are room to work in. Takes no memory.
pub fn show(
    hosting: &Hosting,
    frames: &FrameList,
    locals: &mut ValueList,
    pending: &mut ValueList,
    into: &mut Shown,
)
    requires { (k : ℕ) → CanTranslate (body_in (host hosting.now).bodies k) }
    ensures { into.new ≡ acts_shown (host hosting.now).maps (host hosting.now).bodies (host hosting.now).machine.memory frames.now }
{
    into.clear();
    let count = frames.len();
    for k in 0..count {
        put_act(
            hosting,
            frames,
            frames.at(count - 1 - k),
            locals,
            pending,
            into,
        );
    }
}
