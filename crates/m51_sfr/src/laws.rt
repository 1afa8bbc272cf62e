//! What the table promises. Each law is the contract of a function that does nothing.
ghost use Rattle.m51_sfr.specs.Laws.{TableIsTheManuals, NamesDiffer, AddressesDiffer};

/// The table of the code is the manual's map of the registers: names, addresses, bits and their numbers.
///
/// Source: family manual.
pub fn table_is_the_manuals()
    ensures { TableIsTheManuals }
{}

/// No two names, of registers or of bits with addresses, are the same.
///
/// Source: family manual.
pub fn names_differ()
    ensures { NamesDiffer }
{}

/// No two registers have the same direct address, and no two named bits the same bit address; all are from 80H to 0FFH.
///
/// Source: family manual.
pub fn addresses_differ()
    ensures { AddressesDiffer }
{}
