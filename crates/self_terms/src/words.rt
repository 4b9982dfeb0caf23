// Words of the emulated machine that stand for integers and for references.
ghost use Rattle.std.specs.Prelude.{◌≡◌, ◌≤◌, ◌<◌, ◌%◌, ◌^◌, ◌↔◌, ℤ, ℕ, pos, negsuc, IsTrue};
ghost use Rattle.self_terms.specs.Words.{IsInt, IsSmall, int_of, word_of};

/// A word of 32 bits: an integer, whose low two bits are 0, or a reference, an address in the heap plus 1.
pub type Word = u32;

/// The word of an integer within 30 bits: 4 times the integer modulo 2 to the 32nd.
pub fn word_of_int(int: i32) -> Word
    requires { IsSmall int }
    ensures word { result ≡ word_of int }
    ensures int { IsInt result }
{
    int.cast_unsigned() << 2
}

/// The integer of a word: a quarter of the word as a number with sign, rounded down where the word is no integer's.
pub fn int_of_word(word: Word) -> i32
    ensures int { result ≡ int_of word }
    ensures small { IsSmall result }
{
    word.cast_signed() >> 2
}

/// Whether a word stands for an integer.
pub fn is_int(word: Word) -> bool
    ensures { IsTrue result ↔ IsInt word }
{
    word & 3 == 0
}

/// Each integer within 30 bits is read back from its word, and each word of an integer is the word of what is read.
pub fn words_are_integers()
    ensures back { (int : ℤ) → IsSmall int → int_of (word_of int) ≡ int }
    ensures again { (word : ℕ) → word < 2 ^ 32 → IsInt word → word_of (int_of word) ≡ word }
{}
