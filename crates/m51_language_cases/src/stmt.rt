//! Lines with the statements and faults that the rules of lines give them. A statement is seen by its printed line.
use m51_cells::NoMemory;
use m51_stmt::{StmtError, print_stmt, read_line};
use std::alloc::Global;

// The echo program, and a line of each other form.
const LINES: &str = "\
$MOD51\n\
MOV R8,A\n\
NAME ECHO\n\
?STACK SEGMENT IDATA\n\
?PR?MAIN SEGMENT CODE\n\
?PR?CONV SEGMENT CODE\n\
?DT?CONV SEGMENT DATA OVERLAYABLE\n\
?PR?SEND SEGMENT CODE\n\
?DT?SEND SEGMENT DATA OVERLAYABLE\n\
?PR?TICK SEGMENT CODE\n\
?DT?TICK SEGMENT DATA OVERLAYABLE\n\
RSEG ?STACK\n\
DS 32\n\
RSEG ?DT?CONV\n\
CH: DS 1\n\
RSEG ?DT?SEND\n\
OUT: DS 1\n\
RSEG ?DT?TICK\n\
SAVE: DS 1\n\
CSEG AT 0\n\
LJMP MAIN\n\
CSEG AT 0BH\n\
LJMP TICK\n\
RSEG ?PR?MAIN\n\
MAIN: MOV SP,#?STACK-1\n\
MOV TMOD,#21H\n\
MOV TH1,#0FDH\n\
MOV TL1,#0FDH\n\
MOV SCON,#50H\n\
MOV TH0,#0FFH\n\
MOV IE,#82H\n\
SETB TR1\n\
SETB TR0\n\
WAIT: JNB RI,WAIT\n\
CLR RI\n\
MOV A,SBUF\n\
LCALL CONV\n\
LCALL SEND\n\
SJMP WAIT\n\
RSEG ?PR?CONV\n\
CONV: MOV CH,A\n\
ANL A,#0DFH\n\
RET\n\
RSEG ?PR?SEND\n\
SEND: MOV OUT,A\n\
MOV SBUF,OUT\n\
S1: JNB TI,S1\n\
CLR TI\n\
RET\n\
RSEG ?PR?TICK\n\
TICK: MOV SAVE,A\n\
CPL P1.0\n\
MOV A,SAVE\n\
RETI\n\
END\n\
X EQU NOT 1 EQ 1\n\
X SET -(1-2-3) SHL 4\n\
X BIT P1.7\n\
DB 'it''s',1,'A'\n\
DW 'AB',X\n\
EXTRN DATA (X,Y), CODE (Z)\n\
PUBLIC X,Y\n\
USING 2\n\
BSEG AT 20H\n\
XSEG\n\
L: DBIT 3\n\
ORG $+2\n\
MOV A,@R0\n\
MOVX A,@DPTR\n\
JMP @A+DPTR\n\
MOVC A,@A+PC\n\
ORL C,/X.1\n\
$INCLUDE(A B(1)\n\
$TITLE(x)\n\
L:\n\
\n\
";

// Lines, and their printed lines.
const READ: &str = "\
MOV RX,A\n\
l?: mov\ta,#0fh ; x\n\
\n\
L:\n\
MOVC A, @ A + PC\n\
JMP @A+DPTR\n\
ANL C,/P1.0\n\
CJNE @R1,#LOW -1,$\n\
MUL AB\n\
INC DPTR\n\
DB 'it''s',1+2,'A',('A'),''\n\
DW 'AB',X\n\
S SEGMENT XDATA INPAGE OVERLAYABLE\n\
S SEGMENT CODE\n\
CSEG\n\
BSEG AT 20H\n\
X EQU Y\n\
X SET X+1\n\
ACC DATA 30H\n\
B BIT P1.7\n\
PUBLIC A1, B\n\
EXTRN DATA (X,Y), NUMBER (Z)\n\
NAME ECHO\n\
USING 3\n\
$NoMod51\n\
$TITLE ( a b ) ; x\n\
$include(A(1.inc)\n\
END\n\
";

const PRINTED: &str = "\
MOV RX , A \n\
L? : MOV A , # 0000FH \n\
\n\
L : \n\
MOVC A , @ A + PC \n\
JMP @ A + DPTR \n\
ANL C , / ( P1 . 00000H ) \n\
CJNE @ R1 , # ( LOW ( - 00001H ) ) , $ \n\
MUL AB \n\
INC DPTR \n\
DB 'it''s' , ( 00001H + 00002H ) , 'A' , 00041H , '' \n\
DW 04142H , X \n\
S SEGMENT XDATA INPAGE OVERLAYABLE \n\
S SEGMENT CODE UNIT \n\
CSEG \n\
BSEG AT 00020H \n\
X EQU Y \n\
X SET ( X + 00001H ) \n\
ACC DATA 00030H \n\
B BIT ( P1 . 00007H ) \n\
PUBLIC A1 , B \n\
EXTRN DATA ( X ) , DATA ( Y ) , NUMBER ( Z ) \n\
NAME ECHO \n\
USING 00003H \n\
$NOMOD51 \n\
$LIST \n\
$INCLUDE (A(1.inc) \n\
END \n\
";

// Lines of fault 6: an expression or an operand is missing.
const NO_EXPRESSION: &str = "\
DB\n\
X EQU\n\
MOV A B,\n\
NOP #\n\
DS 5,6+\n\
MOV A,R0+\n\
MOV A,PC\n\
MOV A,#R0\n\
MOV A,#(1 2)\n\
LJMP 'abc'\n\
DB 'abc'+1\n\
CSEG AT\n\
L: X EQU\n\
NOP ''\n\
MOV A,B ''+1\n\
EXTRN DATA ()\n\
EXTRN DATA (X\n\
EXTRN DATA (+)\n\
EXTRN DATA (X+)\n\
EXTRN DATA (X,+)\n\
EXTRN DATA (X),CODE #\n\
END (AND)\n\
END (-NOT X)\n\
END ((X Y))\n\
END (20H AND)\n\
END +\n\
L: END +\n\
CSEG #\n\
CSEG -NOT X\n\
CSEG (1+)\n\
BSEG X AT /\n\
RSEG X MOD\n\
RSEG HIGH\n\
RSEG A+\n\
PUBLIC X,+\n\
PUBLIC X,Y.\n\
PUBLIC (X+)\n\
PUBLIC 'abc'+1\n\
NAME /\n\
NAME X#,Y\n\
S SEGMENT CODE *\n\
S SEGMENT NOT\n\
";

// Lines of fault 11: no instruction, or one with other operands.
const NO_INSTRUCTION: &str = "\
MOV #1,A\n\
5\n\
: NOP\n\
\x20$LIST\n\
L: M: NOP\n\
L: MOV: NOP\n\
MOV\n\
MOV ,A\n\
MOV A,@\n\
MOV A,/X\n\
MOV A,R0+1\n\
MOV A,@R2\n\
MOVC A,@A+\n\
CJNE A,#1,L,M\n\
MOV A ''\n\
MOV A,B ''\n\
";

// Lines of fault 12: out of their form, or a reserved word is to be defined.
const OUT_OF_FORM: &str = "\
%IF\n\
R0: NOP\n\
HIGH EQU 1\n\
AR0 EQU 5\n\
MOV DATA,A\n\
DB SET\n\
PUSH BIT\n\
EXTRN EQU (\n\
L: X EQU 5\n\
RSEG MOV\n\
NAME ADD\n\
RSEG\n\
DS 5 'abc'\n\
DW 5 ''\n\
CSEG AT 5 'abc'\n\
END (NOT -X)\n\
END (X Y)\n\
CSEG -1\n\
CSEG (1+2)\n\
RSEG X+1\n\
RSEG X MOD Y\n\
PUBLIC X #5\n\
PUBLIC X,,Y\n\
PUBLIC X,(Y,Z)\n\
PUBLIC @A+\n\
PUBLIC 'abc'\n\
NAME X/Y\n\
S SEGMENT CODE NOT 1\n\
EXTRN ((X),A\n\
EXTRN ) ( AR3 X\n\
DB 'abc' 5\n\
EXTRN DATA (X,)\n\
EXTRN DATA (5)\n\
EXTRN DATA (X Y)\n\
EXTRN DATA (X+1)\n\
EXTRN DATA (HIGH)\n\
EXTRN DATA (MOV\n\
S SEGMENT DATA INPAGE\n\
S SEGMENT CODE OVERLAYABLE\n\
S SEGMENT DATA OVERLAYABLE UNIT\n\
$ LIST\n\
$INCLUDE()\n\
$INCLUDE(a)b\n\
";

// The printed line of a line's statement, or the number of the fault; 0 is out of memory.
fn answer(alloc: Global, line: &str) -> Result<Vec<u8>, u8> {
    match read_line(alloc, line) {
        Ok(statement) => print_stmt(alloc, &statement).map_err(|_| 0),
        Err(StmtError::Fault { number }) => Err(number),
        Err(StmtError::Memory) => Err(0),
    }
}

// Whether this is the printed line of a line.
fn prints(alloc: Global, line: &str, want: &str) -> bool {
    match answer(alloc, line) {
        Ok(text) => text.as_slice() == want.as_bytes(),
        Err(_) => false,
    }
}

// The number of the fault of a line, if it has one; 0 is out of memory.
fn fault(alloc: Global, line: &str) -> Option<u8> {
    answer(alloc, line).err()
}

// The same of a line that begins with this text and continues with a character, repeated this number of times.
fn fault_of_many(
    alloc: Global,
    front: &str,
    character: char,
    count: usize,
) -> Result<Option<u8>, NoMemory> {
    let mut line = String::new(alloc);
    line.push_str(front)?;
    for _ in 0..count {
        line.push(character)?;
    }
    Ok(fault(alloc, line.as_str()))
}

// Whether the statement that a printed line reads as is printed so again; the number of the fault.
fn reads_as_printed(alloc: Global, line: &str) -> Result<bool, u8> {
    let printed = answer(alloc, line)?;
    match str::from_utf8(&printed) {
        Ok(text) => Ok(answer(alloc, text)?.as_slice() == printed.as_slice()),
        Err(_) => Ok(false),
    }
}

#[test]
fn a_line_that_is_read_is_printed(rt: HostRuntime) {
    for (line, want) in READ.lines().zip(PRINTED.lines()) {
        assert!(rt; prints(rt.alloc(), line, want), "at {line}");
    }
}

#[test]
fn a_line_has_one_fault(rt: HostRuntime) {
    for (lines, number) in [
        ("MOV A,!", 1),
        ("DB 'A", 2),
        ("MOV A,#65536", 3),
        ("LJMP A23456789_123456789?1234567890AB", 4),
        (NO_EXPRESSION, 6),
        (NO_INSTRUCTION, 11),
        (OUT_OF_FORM, 12),
    ] {
        for line in lines.lines() {
            assert!(rt; fault(rt.alloc(), line) == Some(number), "at {line}");
        }
    }
}

#[test]
fn a_long_line_is_fault_5(rt: HostRuntime) {
    for (count, want) in [(255, None), (256, Some(5))] {
        assert!(rt;
            fault_of_many(rt.alloc(), "", ';', count) == Ok(want),
            "at {count} bytes"
        );
    }
}

#[test]
fn a_printed_line_reads_as_its_statement(rt: HostRuntime) {
    for line in LINES.lines() {
        assert!(rt; reads_as_printed(rt.alloc(), line) == Ok(true), "at {line}");
    }
}

#[test]
fn a_line_of_parentheses_ends_soon(rt: HostRuntime) {
    assert!(rt; fault_of_many(rt.alloc(), "EXTRN ", '(', 249) == Ok(Some(6)));
}
