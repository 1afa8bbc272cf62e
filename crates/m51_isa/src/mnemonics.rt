//! The mnemonics of the instruction table.
ghost use Rattle.std.specs.Prelude.{◌≡◌, ◌∷◌, ℕ, List};
ghost use Rattle.std.specs.List.{list_any};
ghost use Rattle.std.specs.Str.{bytes_eq};
ghost use Rattle.m51_isa.specs.Mnemonics.{is_mnemonic};

// The mnemonics that begin with this letter, in the order of the table.
#[tactic(auto, unfolding(crate::specs::Mnemonics::is_mnemonic))]
fn of_letter(first: u8) -> &'static [&'static [u8]]
    ensures { (rest : List ℕ) → list_any (λ w. bytes_eq w.now (first ∷ rest)) result.now ≡ is_mnemonic (first ∷ rest) }
{
    match first {
        b'A' => &[b"ANL", b"AJMP", b"ACALL", b"ADD", b"ADDC"],
        b'C' => &[b"CALL", b"CPL", b"CLR", b"CJNE"],
        b'D' => &[b"DEC", b"DIV", b"DA", b"DJNZ"],
        b'I' => &[b"INC"],
        b'J' => &[b"JBC", b"JB", b"JNB", b"JC", b"JNC", b"JZ", b"JNZ", b"JMP"],
        b'L' => &[b"LJMP", b"LCALL"],
        b'M' => &[b"MOV", b"MOVX", b"MOVC", b"MUL"],
        b'N' => &[b"NOP"],
        b'O' => &[b"ORL"],
        b'P' => &[b"PUSH", b"POP"],
        b'R' => &[b"RET", b"RETI", b"RR", b"RRC", b"RL", b"RLC"],
        b'S' => &[b"SJMP", b"SETB", b"SUBB", b"SWAP"],
        b'X' => &[b"XRL", b"XCH", b"XCHD"],
        _ => &[],
    }
}

// Whether the word is one of these.
fn is_among(word: &[u8], words: &[&[u8]]) -> bool
    ensures { result ≡ list_any (λ w. bytes_eq w.now word.now) words.now }
{
    words.iter().any(|one| *one == word)
}

/// Whether the word, in upper case, is the mnemonic of a row, or the generic `CALL`.
///
/// Source: family manual.
#[tactic(auto, unfolding(crate::specs::Mnemonics::is_mnemonic))]
pub fn is_mnemonic(word: &[u8]) -> bool
    ensures { result ≡ is_mnemonic word.now }
{
    match word.split_first() {
        Some((letter, _)) => is_among(word, of_letter(*letter)),
        None => false,
    }
}
