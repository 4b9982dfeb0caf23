// What the words of each node do.
ghost use Rattle.std.specs.Prelude.{◌≡◌, List, ◌++◌, true, false, length, ◌<◌, ◌≤◌, ℕ, ◌+◌, ◌*◌, ◌%◌, Bool, ℤ, ◌+ℤ◌, ◌-ℤ◌};
ghost use Rattle.self_terms.specs.Words.{IsSmall, word_of};
ghost use Rattle.sparc_store.specs.Words.{word_at};
ghost use Rattle.sparc_machine.specs.State.{MachineState};
ghost use Rattle.sparc_machine.specs.Alu.{add};
ghost use Rattle.frame_walk.specs.Places.{pending_offset};
ghost use Rattle.plain_words.specs.Code.{constant_code, self_code, drop_code, read_code, store_code, send_code, implied_code, answered_code, is_sum, sum_code, primitive_code, non_local_code, return_code, block_code, method_code, entered_code};
ghost use Rattle.self_terms.specs.declared.bodies.Body.{Body};
ghost use Rattle.plain_words.specs.declared.references.References.{References};
ghost use Rattle.plain_words.specs.Units.{owns_context, of_block, numbered, frame_words, initial_words, entry_code};
ghost use Rattle.plain_words.specs.Showing.{PendedShows, LeftShows, MadeShows, BegunShows};
ghost use Rattle.plain_words.specs.Moves.{IsReady, Does, pended, HasLocal, local_address, assigned, Asks, handed_receiver, first_handed, handed_argument, summed, overflows, Ends, CanReturn, HasContext, unmarked, HasRoom, cost_left, block_made, Makes, IsFull, CanEnter, Enters, entered_memory, CanBegin, Begins, begun_memory};

/// The words of a constant pend it.
pub fn constants_are_pended()
    ensures { (m : MachineState) (p words locals k word : ℕ) → IsReady m p words (constant_code locals k word) → 27 + locals + k < words → Does m p (constant_code locals k word) (pended m locals k word) }
{}

/// Those of `self` pend the receiver.
pub fn receivers_are_pended()
    ensures { (m : MachineState) (p words locals k : ℕ) → IsReady m p words (self_code locals k) → 27 + locals + k < words → Does m p (self_code locals k) (pended m locals k (m.regs 24)) }
{}

/// The end of a statement counts its step.
pub fn values_are_dropped()
    ensures { (m : MachineState) (p words : ℕ) → IsReady m p words drop_code → Does m p drop_code m.memory }
{}

/// Those of a local, however many bodies out, pend its word.
pub fn locals_are_read()
    ensures { (m : MachineState) (p words : ℕ) (owns : Bool) (locals k up slot : ℕ) → IsReady m p words (read_code owns locals k up slot) → 27 + locals + k < words → HasLocal m words owns up slot → Does m p (read_code owns locals k up slot) (pended m locals k (word_at m.memory (local_address m owns up slot))) }
{}

/// Those of an assignment put the value for the local, and pend the receiver in its place.
pub fn locals_are_stored()
    ensures { (m : MachineState) (p words : ℕ) (owns : Bool) (locals k up slot : ℕ) → IsReady m p words (store_code owns locals k up slot) → 27 + locals + k < words → HasLocal m words owns up slot → Does m p (store_code owns locals k up slot) (assigned m owns locals k up slot) }
{}

/// Those of a message to a stated receiver ask for service 1.
pub fn messages_are_sent()
    ensures { (m : MachineState) (p words locals k args : ℕ) → IsReady m p words (send_code 1 locals k args) → args ≤ 5 → 28 + locals + k + args ≤ words → Asks m 1 (p + 24 + 4 * (1 + args)) (word_at m.memory (m.regs 14 + pending_offset locals k)) locals (k + 1) args }
{}

/// Those of a message without a receiver, of a resend and of a directed one ask for it with the activation's own.
pub fn own_messages_are_sent()
    ensures { (m : MachineState) (p words locals k args : ℕ) → IsReady m p words (implied_code 1 locals k args) → args ≤ 5 → 27 + locals + k + args ≤ words → Asks m 1 (p + 24 + 4 * (1 + args)) (m.regs 24) locals k args }
{}

/// Those of a primitive that is no sum ask for service 3 with its receiver, its arguments, and the handler, where there is one, behind them.
pub fn primitives_are_asked()
    ensures { (m : MachineState) (p words name args : ℕ) (implied : Bool) (locals k n : ℕ) → is_sum name args ≡ false → IsReady m p words (primitive_code name args implied locals k n) → n ≤ 5 → 27 + locals + first_handed implied k + n ≤ words → Asks m 3 (p + 24 + 4 * (1 + n)) (handed_receiver m implied locals k) locals (first_handed implied k) n }
{}

/// Those of a sum or a difference pend it, where both words are those of integers and it doesn't overflow; else they ask for service 3 likewise.
pub fn sums_are_done()
    ensures done { (m : MachineState) (p words : ℕ) (less implied : Bool) (locals k n : ℕ) → IsReady m p words (sum_code less implied locals k n ++ answered_code locals k) → 0 < n → n ≤ 5 → 27 + locals + first_handed implied k + n ≤ words → overflows less (handed_receiver m implied locals k) (handed_argument m implied locals k) ≡ false → Does m p (sum_code less implied locals k n ++ answered_code locals k) (pended m locals k (summed less (handed_receiver m implied locals k) (handed_argument m implied locals k))) }
    ensures asked { (m : MachineState) (p words : ℕ) (less implied : Bool) (locals k n : ℕ) → IsReady m p words (sum_code less implied locals k n) → 0 < n → n ≤ 5 → 27 + locals + first_handed implied k + n ≤ words → overflows less (handed_receiver m implied locals k) (handed_argument m implied locals k) ≡ true → Asks m 3 (p + 24 + 4 * (7 + n)) (handed_receiver m implied locals k) locals (first_handed implied k) n }
{}

/// The sum of the words of two integers is the word of their sum, just where that has 30 bits; else it overflows. So is the difference. Words
/// that don't overflow have no tag.
pub fn words_are_summed()
    ensures sum { (x y : ℤ) → IsSmall x → IsSmall y → IsSmall (x +ℤ y) → (overflows false (word_of x) (word_of y) ≡ false) × (summed false (word_of x) (word_of y) ≡ word_of (x +ℤ y)) }
    ensures difference { (x y : ℤ) → IsSmall x → IsSmall y → IsSmall (x -ℤ y) → (overflows true (word_of x) (word_of y) ≡ false) × (summed true (word_of x) (word_of y) ≡ word_of (x -ℤ y)) }
    ensures sum_fits { (x y : ℤ) → IsSmall x → IsSmall y → overflows false (word_of x) (word_of y) ≡ false → IsSmall (x +ℤ y) }
    ensures untagged { (less : Bool) (x y : ℕ) → overflows less x y ≡ false → (x % 4 ≡ 0) × (y % 4 ≡ 0) }
    ensures difference_fits { (x y : ℤ) → IsSmall x → IsSmall y → overflows true (word_of x) (word_of y) ≡ false → IsSmall (x -ℤ y) }
{}

/// Those of a return from a home method ask for service 4, with the answer in %o0.
pub fn home_returns_are_asked()
    ensures { (m : MachineState) (p words locals k : ℕ) → IsReady m p words (non_local_code locals k) → 28 + locals + k ≤ words → Asks m 4 (p + 24 + 4 * (1 + 0)) (word_at m.memory (m.regs 14 + pending_offset locals k)) locals (k + 1) 0 }
{}

/// Those of a return lead to the caller's frame, with the answer in its %o0, and put 0 for the mark of the activation's context.
pub fn activations_return()
    ensures { (m : MachineState) (p words : ℕ) (owns : Bool) (locals k : ℕ) → IsReady m p words (return_code owns locals k) → 27 + locals + k < words → HasContext m owns → CanReturn m → Ends m (unmarked m owns) (word_at m.memory (m.regs 14 + pending_offset locals k)) }
{}

/// Those of a block literal put a block at the heap's top and pend it, where so much is left of the plain cost; else they come to service 8.
pub fn blocks_are_made()
    ensures made { (m : MachineState) (p words locals k map body : ℕ) → IsReady m p words (block_code locals k map body) → 27 + locals + k < words → HasRoom (m.regs 6) 4 → add (m.regs 3) 4 ≤ cost_left m → Makes m p 4 (block_code locals k map body) (block_made m locals k map body) }
    ensures full { (m : MachineState) (p words locals k map body : ℕ) → IsReady m p words (block_code locals k map body) → cost_left m < add (m.regs 3) 4 → IsFull m (p + 48) }
{}

/// Those before a method's first node lead into it: its frame is made and filled, and the activation and the step are counted.
pub fn methods_are_entered()
    ensures { (m : MachineState) (p words arguments : ℕ) (initial : List ℕ) (c : CanEnter m p words arguments initial) → Enters m (p + 4 * length (method_code (4 * words) arguments initial)) c.place (entered_memory m c.place arguments initial) }
{}

/// Those before the first node of a method whose activations have contexts lead into it: the frame keeps the holder, and a context with the
/// arguments and locals is put at the heap's top.
pub fn methods_with_contexts_are_entered()
    ensures { (m : MachineState) (p words map arguments : ℕ) (initial : List ℕ) (c : CanBegin true false m p words map arguments initial) → Begins true false m (p + 4 * length (entered_code true false (4 * words) map arguments initial)) c.place (arguments + length initial) (begun_memory true false m c.place map arguments initial) }
{}

/// Those before the first node of a block lead into it, with a context or without: the maker's context and the receiver are those of the block,
/// and the holder that of the frame which the context's mark names.
pub fn blocks_are_entered()
    ensures { (owns : Bool) (m : MachineState) (p words map arguments : ℕ) (initial : List ℕ) (c : CanBegin owns true m p words map arguments initial) → Begins owns true m (p + 4 * length (entered_code owns true (4 * words) map arguments initial)) c.place (arguments + length initial) (begun_memory owns true m c.place map arguments initial) }
{}

/// The words of an entry: for a method without a context those that `methods_are_entered` speaks of, for any other body those of its kind.
pub fn entries_have_kinds()
    ensures method { (r : References) (b : Body) → owns_context b ≡ false → of_block b ≡ false → entry_code r b ≡ method_code (4 * frame_words b) (length b.arguments) (initial_words r b) }
    ensures other { (r : References) (b : Body) (owns block : Bool) → owns_context b ≡ owns → of_block b ≡ block → entry_code r b ≡ entered_code owns block (4 * frame_words b) (numbered r.contexts) (length b.arguments) (initial_words r b) }
{}

/// What the frame in view shows after a word was pended, where nothing was stored, after a block was made, whose words then stand in the
/// heap, and where an activation with a context has begun.
pub fn frames_show_on()
    ensures pended { PendedShows }
    ensures left { LeftShows }
    ensures made { MadeShows }
    ensures begun { BegunShows }
{}
