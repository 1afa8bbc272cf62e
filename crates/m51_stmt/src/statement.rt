//! Statements.
use m51_cells::{Bytes, Kind, ListOf, Name, Names, Reloc};
use m51_expr::{Expr, Items, Operands};

/// The names of EXTRN with their kinds.
///
/// Source: own choice ("Lists in types").
pub type Externs = ListOf<(Name, Kind)>;

/// What a line says, without its label.
///
/// Source: ASM51 guide.
#[derive(Drop)]
pub enum Body {
    /// Nothing but blanks and a comment.
    Empty,
    /// A control that changes nothing, as `$LIST`.
    Ignored,
    /// `$INCLUDE`, with the name between its parentheses.
    Include(Bytes),
    /// `$MOD51` or `$NOMOD51`: whether the names of the 8052 are predefined.
    Mod51(bool),
    /// `END`
    End,
    /// An instruction, by its mnemonic.
    Code(Name, Operands),
    /// `DB`
    Db(Items),
    /// `DW`
    Dw(Items),
    /// `DS`
    Ds(Expr),
    /// `DBIT`
    Dbit(Expr),
    /// `ORG`
    Org(Expr),
    /// `USING`
    Using(Expr),
    /// `SEGMENT`: name, kind, type, and whether OVERLAYABLE is written.
    Segment(Name, Kind, Reloc, bool),
    /// `RSEG`
    Rseg(Name),
    /// `CSEG`, `XSEG`, `DSEG`, `ISEG` or `BSEG`, with what follows AT.
    Select(Kind, Option<Expr>),
    /// `EQU`
    Equ(Name, Expr),
    /// `SET`
    Set(Name, Expr),
    /// `CODE`, `XDATA`, `DATA`, `IDATA` or `BIT` as a word of definitions.
    Address(Name, Kind, Expr),
    /// `PUBLIC`
    Public(Names),
    /// `EXTRN`
    Extrn(Externs),
    /// `NAME`
    ModuleName(Name),
}

/// A line: its label, if it has one, and what it says.
///
/// Source: ASM51 guide.
#[derive(Drop)]
pub struct Stmt {
    pub label: Option<Name>,
    pub body: Body,
}

impl Stmt {
    ghost use Rattle.std.specs.Prelude.{◌≡◌, None};
    ghost use Rattle.m51_stmt.specs.Statement.{Empty, stmt_tree};

    /// The line that says nothing, into which `read_line_into` may write.
    ///
    /// Source: own choice ("Statements in place").
    pub fn nothing() -> Stmt
        ensures { stmt_tree result ≡ record { label = None; body = Empty } }
    {
        Stmt {
            label: None,
            body: Body::Empty,
        }
    }
}
