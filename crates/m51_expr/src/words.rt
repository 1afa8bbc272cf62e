//! The words of the language.
ghost use Rattle.std.specs.Prelude.{◌≡◌};
ghost use Rattle.std.specs.List.{list_any};
ghost use Rattle.std.specs.Str.{bytes_eq};
ghost use Rattle.m51_expr.specs.Words.{is_language_word, is_reserved};

use m51_isa::is_mnemonic;

const DIRECTIVES: [&[u8]; 20] = [
    b"AT", b"BSEG", b"CSEG", b"DB", b"DBIT", b"DS", b"DSEG", b"DW", b"END", b"EQU", b"EXTRN",
    b"ISEG", b"NAME", b"ORG", b"PUBLIC", b"RSEG", b"SEGMENT", b"SET", b"USING", b"XSEG",
];

const KINDS_AND_TYPES: [&[u8]; 12] = [
    b"BIT",
    b"CODE",
    b"DATA",
    b"IDATA",
    b"NUMBER",
    b"XDATA",
    b"BITADDRESSABLE",
    b"INBLOCK",
    b"INPAGE",
    b"OVERLAYABLE",
    b"PAGE",
    b"UNIT",
];

const REGISTERS: [&[u8]; 13] = [
    b"A", b"AB", b"C", b"DPTR", b"PC", b"R0", b"R1", b"R2", b"R3", b"R4", b"R5", b"R6", b"R7",
];

/// `AR0` to `AR7`, which are the registers of the bank in use as direct addresses, from register 0 upward.
///
/// Source: ASM51 guide.
pub const BANK_REGISTERS: [&[u8]; 8] = [
    b"AR0", b"AR1", b"AR2", b"AR3", b"AR4", b"AR5", b"AR6", b"AR7",
];

const OPERATORS: [&[u8]; 15] = [
    b"HIGH", b"LOW", b"NOT", b"MOD", b"SHL", b"SHR", b"EQ", b"NE", b"LT", b"LE", b"GT", b"GE",
    b"AND", b"OR", b"XOR",
];

// Whether the word is one of these.
fn is_word_among(word: &[u8], words: &[&[u8]]) -> bool
    ensures { result ≡ list_any (λ w. bytes_eq w.now word.now) words.now }
{
    words.iter().any(|one| *one == word)
}

/// Whether the word, in upper case, is a mnemonic, a directive, a kind, a type or a register of instructions: such a
/// word begins no expression.
#[tactic(auto, unfolding(crate::specs::Words::is_language_word, m51_isa::specs::Mnemonics::is_mnemonic))]
pub(crate) fn is_language_word(word: &[u8]) -> bool
    ensures { result ≡ is_language_word word.now }
{
    is_mnemonic(word)
        || is_word_among(word, &DIRECTIVES)
        || is_word_among(word, &KINDS_AND_TYPES)
        || is_word_among(word, &REGISTERS)
}

/// Whether nothing can define the word, which is in upper case: a word of the language, `AR0` to `AR7`, or the word
/// of an operator.
///
/// Source: own choice ("Reserved words").
#[tactic(auto, unfolding(crate::specs::Words::is_reserved))]
pub fn is_reserved(word: &[u8]) -> bool
    ensures { result ≡ is_reserved word.now }
{
    is_language_word(word)
        || is_word_among(word, &BANK_REGISTERS)
        || is_word_among(word, &OPERATORS)
}
