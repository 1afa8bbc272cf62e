//! Expressions that begin at a token of a line: whether they are a sum, and the index of the token after them.
use m51_expr::{Binary, Expr, ReadError, read_expr};
use m51_lex::tokens;
use std::alloc::Global;

fn is_sum(expr: &Expr) -> bool {
    match expr {
        Expr::Two(Binary::Add, _, _) => true,
        _ => false,
    }
}

// What begins at this token, or the number of the fault; 0 is out of memory, or a line that has no such token.
fn answer(alloc: Global, line: &str, from: usize) -> Result<(bool, usize), u8> {
    let found = tokens(alloc, line).map_err(|_| 0)?;
    if from > found.len() {
        return Err(0);
    }
    match read_expr(alloc, line, &found, from) {
        Ok((expr, next)) => Ok((is_sum(&expr), next)),
        Err(ReadError::Fault { number }) => Err(number),
        Err(ReadError::Memory) => Err(0),
    }
}

#[test]
fn an_expression_begins_at_a_token(rt: HostRuntime) {
    for (line, from, want) in [
        ("MOV A,#1+2 SHL 3", 4, Ok((true, 9))),
        ("DB 1,(X)+2,3", 3, Ok((true, 8))),
        ("DB 1,(X)+2,3", 4, Ok((false, 5))),
        ("DB 1,(X)+2,3", 1, Ok((false, 2))),
        ("1+2 EQ 3", 0, Ok((false, 5))),
        ("DB 1,", 3, Err(6)),
        ("MOV A,B", 1, Err(6)),
        ("1+NOT 2", 0, Err(6)),
        ("", 0, Err(6)),
    ] {
        assert!(rt;
            answer(rt.alloc(), line, from) == want,
            "at {from} of {line}"
        );
    }
}
