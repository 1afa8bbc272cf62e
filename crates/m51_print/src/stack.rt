//! The stack bound of a program, and why it has none.
ghost use Rattle.std.specs.Prelude.{◌≡◌, ◌≢◌, ◌<◌, ◌++◌, OnOk, IfOk, map, flat_map, length, All};
ghost use Rattle.m51_print.specs.Map.{listed, after_comma};
ghost use Rattle.m51_print.specs.Stack.{start_text, proc_line, line_of_proc, root_line, line_of_root, bound_line};
ghost use Rattle.m51_print.specs.Stack.{stack_of, IsBoundOf, placed_at, stack_words, stack_refusal};

use crate::pushing::{push_decimal, push_hex2, push_hex4, push_text};
use crate::refusals::push_limit;
use crate::titles::unit_title;
use m51_cells::{Name, NoMemory};
use m51_module::{Layout, Proc, Quantity, RootDepth, StackBound, StackError, Start};
use std::alloc::Global;

// Appends a start.
fn push_start(text: &mut Vec<u8>, start: Start) -> Result<(), NoMemory>
    ensures { OnOk result (text.new.items ≡ text.old.items ++ start_text start) }
{
    match start {
        Start::Reset => push_text(text, b"RESET"),
        Start::At(address) => push_hex4(text, address),
    }
}

// Appends each start after a comma.
fn push_other_starts(text: &mut Vec<u8>, starts: &[Start]) -> Result<(), NoMemory>
    ensures { OnOk result (text.new.items ≡ text.old.items ++ flat_map after_comma (map start_text starts.now)) }
{
    for start in starts {
        push_text(text, b",")?;
        push_start(text, *start)?;
    }
    Ok(())
}

// Appends starts with commas between them, and `-` where there is none.
#[tactic(auto, unfolding(crate::specs::Map::listed))]
fn push_path(text: &mut Vec<u8>, path: &[Start]) -> Result<(), NoMemory>
    ensures { OnOk result (text.new.items ≡ text.old.items ++ listed (map start_text path.now)) }
{
    match path {
        [] => push_text(text, b"-"),
        [first, more @ ..] => {
            push_start(text, *first)?;
            push_other_starts(text, more)
        }
    }
}

// Appends the line of a start other than the reset.
#[tactic(auto, unfolding(crate::specs::Stack::proc_line))]
fn push_proc_line(text: &mut Vec<u8>, at: u16, unit: &Name, depth: u16) -> Result<(), NoMemory>
    ensures { OnOk result (text.new.items ≡ text.old.items ++ proc_line at unit.now depth) }
{
    push_text(text, b"PROC ")?;
    push_hex4(text, at)?;
    push_text(text, b" ")?;
    push_text(text, unit.bytes())?;
    push_text(text, b" ")?;
    push_decimal(text, u64::from(depth))?;
    push_text(text, b"\n")
}

// Appends the lines of these starts.
fn push_procs(text: &mut Vec<u8>, layout: &Layout, procs: &[Proc]) -> Result<(), NoMemory>
    requires { All (λ proc. proc.unit < length layout.now.units) procs.now }
    ensures { OnOk result (text.new.items ≡ text.old.items ++ flat_map (line_of_proc layout.now) procs.now) }
{
    for proc in procs {
        push_proc_line(text, proc.at, unit_title(layout, proc.unit), proc.depth)?;
    }
    Ok(())
}

// Appends the line of a root.
#[tactic(auto, unfolding(crate::specs::Stack::root_line))]
fn push_root_line(
    text: &mut Vec<u8>,
    root: &Name,
    depth: u16,
    path: &[Start],
) -> Result<(), NoMemory>
    ensures { OnOk result (text.new.items ≡ text.old.items ++ root_line root.now depth path.now) }
{
    push_text(text, b"STACK ")?;
    push_text(text, root.bytes())?;
    push_text(text, b" ")?;
    push_decimal(text, u64::from(depth))?;
    push_text(text, b" ")?;
    push_path(text, path)?;
    push_text(text, b"\n")
}

// Appends the line of a root of this layout.
fn push_root(text: &mut Vec<u8>, layout: &Layout, root: &RootDepth) -> Result<(), NoMemory>
    requires { root.now.root < length layout.now.units }
    ensures { OnOk result (text.new.items ≡ text.old.items ++ line_of_root layout.now root.now) }
{
    push_root_line(
        text,
        unit_title(layout, root.root),
        root.depth,
        root.path.as_slice(),
    )
}

// Appends the lines of the roots.
fn push_roots(text: &mut Vec<u8>, layout: &Layout, roots: &[RootDepth]) -> Result<(), NoMemory>
    requires { All (λ root. root.root < length layout.now.units) roots.now }
    ensures { OnOk result (text.new.items ≡ text.old.items ++ flat_map (line_of_root layout.now) roots.now) }
{
    for root in roots {
        push_root(text, layout, root)?;
    }
    Ok(())
}

// Appends the line of the bound.
fn push_bound(text: &mut Vec<u8>, total: u8) -> Result<(), NoMemory>
    ensures { OnOk result (text.new.items ≡ text.old.items ++ bound_line total) }
{
    push_text(text, b"BOUND ")?;
    push_hex2(text, total)?;
    push_text(text, b"\n")
}

/// The stack bound of a program: a line for each start other than the reset, a line for each root, both in the order of
/// the bound, and the line of its total. The units and roots of the bound are units of the layout. Error: out of
/// memory.
///
/// Source: own choice ("Texts").
#[tactic(auto, unfolding(crate::specs::Stack::stack_of))]
pub fn stack_text(alloc: Global, bound: &StackBound, layout: &Layout) -> Result<Vec<u8>, NoMemory>
    requires { IsBoundOf layout.now bound.now }
    ensures { IfOk result (λ text. text.items ≡ stack_of layout.now bound.now) }
{
    let mut text = Vec::new(alloc);
    push_procs(&mut text, layout, bound.procs.as_slice())?;
    push_roots(&mut text, layout, bound.roots.as_slice())?;
    push_bound(&mut text, bound.total)?;
    Ok(text)
}

// Appends a rule, a start and an address.
fn push_placed(text: &mut Vec<u8>, rule: &[u8], start: Start, at: u16) -> Result<(), NoMemory>
    ensures { OnOk result (text.new.items ≡ text.old.items ++ rule.now ++ placed_at start at) }
{
    push_text(text, rule)?;
    push_start(text, start)?;
    push_text(text, b" AT ")?;
    push_hex4(text, at)
}

// Appends the refusal K4 with the start that calls itself.
fn push_recursion(text: &mut Vec<u8>, start: Start) -> Result<(), NoMemory>
    ensures { OnOk result (text.new.items ≡ text.old.items ++ stack_words (StackError.K4 start)) }
{
    push_text(text, b"STACK K4 ")?;
    push_start(text, start)
}

// Appends why there is no bound.
fn push_stack_error(text: &mut Vec<u8>, error: &StackError) -> Result<(), NoMemory>
    requires { error.now ≢ StackError.Memory }
    ensures { OnOk result (text.new.items ≡ text.old.items ++ stack_words error.now) }
{
    match *error {
        StackError::K1 { start, at } => push_placed(text, b"STACK K1 ", start, at),
        StackError::K2 { start, at } => push_placed(text, b"STACK K2 ", start, at),
        StackError::K3 { start, at } => push_placed(text, b"STACK K3 ", start, at),
        StackError::K4 { start } => push_recursion(text, start),
        StackError::K5 { start, at } => push_placed(text, b"STACK K5 ", start, at),
        StackError::K6 => push_text(text, b"STACK K6"),
        StackError::Limit => push_limit(text, Quantity::Points),
        StackError::Memory => unreachable!(),
    }
}

/// The line that says why a program has no stack bound: the rule, with the start and the address where it has them, or
/// the limit of points. A start is `RESET` or the four digits of its address. Out of memory is no such reason. Error:
/// out of memory.
///
/// Source: own choice ("Texts").
pub fn stack_refusal_text(alloc: Global, error: &StackError) -> Result<Vec<u8>, NoMemory>
    requires { error.now ≢ StackError.Memory }
    ensures { IfOk result (λ text. text.items ≡ stack_refusal error.now) }
{
    let mut text = Vec::new(alloc);
    push_stack_error(&mut text, error)?;
    push_text(&mut text, b"\n")?;
    Ok(text)
}
