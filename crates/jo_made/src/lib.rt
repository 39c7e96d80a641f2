//! Makes sets of scripts by number, for tests and measurements.
#![tactic(auto)]

ghost use Rattle.std.specs.Prelude.{◌≡◌, ◌<◌, ◌++◌, codes, IfOk};
ghost use Rattle.jo_made.specs.Made.{delete_line, draw, loop_head, loop_tail, made, made_script, next_draw, opening, put_line};

use std::alloc::{AllocError, Global};

// Each draw is below this.
const DRAWS: u32 = 1_009;

/// The set of scripts with this number: two to eight of them, of which each makes an object of 1,000 elements.
#[tactic(auto, unfolding(crate::specs::Made::made))]
pub fn made_set(alloc: Global, number: u32) -> Result<Vec<u8>, AllocError>
    ensures { IfOk result (λ set. set.items ≡ made number) }
{
    let mut set = Vec::new(alloc);
    let mut last = add_script(alloc, &mut set, 1, number % DRAWS)?;
    for script in 2..3 + number % 7 {
        set.extend_from_slice(b"%%\n")?;
        last = add_script(alloc, &mut set, script, last)?;
    }
    Ok(set)
}

// Adds a script, whose draws come after this number. The answer is the last of them.
fn add_script(alloc: Global, set: &mut Vec<u8>, script: u32, before: u32) -> Result<u32, AllocError>
    requires { before < 1009 }
    ensures added { IfOk result (λ _. set.new.items ≡ set.old.items ++ made_script script before) }
    ensures last { IfOk result (λ last. (last ≡ draw 6 before) × (last < 1009)) }
{
    set.extend_from_slice(&opening(alloc, script)?)?;
    let fourth = add_puts(alloc, set, script, before)?;
    let fifth = next_draw(fourth);
    add_loop(alloc, set, script, fifth)?;
    let sixth = next_draw(fifth);
    add_end(alloc, set, script, sixth)?;
    Ok(sixth)
}

// Adds the lines that put the first four draws. The answer is the last of them.
fn add_puts(alloc: Global, set: &mut Vec<u8>, script: u32, before: u32) -> Result<u32, AllocError>
    requires { before < 1009 }
    ensures added { IfOk result (λ _. set.new.items ≡ set.old.items
        ++ put_line script 0 (draw 1 before) ++ put_line script 1 (draw 2 before) ++ put_line script 2 (draw 3 before) ++ put_line script 3 (draw 4 before)) }
    ensures last { IfOk result (λ last. (last ≡ draw 4 before) × (last < 1009)) }
{
    let first = next_draw(before);
    add_put(alloc, set, script, 0, first)?;
    let second = next_draw(first);
    add_put(alloc, set, script, 1, second)?;
    let third = next_draw(second);
    add_put(alloc, set, script, 2, third)?;
    let fourth = next_draw(third);
    add_put(alloc, set, script, 3, fourth)?;
    Ok(fourth)
}

// Adds the loop, which fills the elements of the object from a number on.
fn add_loop(alloc: Global, set: &mut Vec<u8>, script: u32, number: u32) -> Result<(), AllocError>
    ensures { IfOk result (λ _. set.new.items ≡ set.old.items ++ loop_head number ++ loop_tail script) }
{
    set.extend_from_slice(&loop_head(alloc, number)?)?;
    set.extend_from_slice(&loop_tail(alloc, script)?)
}

// Adds the lines that put the first name anew, and that print.
fn add_end(alloc: Global, set: &mut Vec<u8>, script: u32, number: u32) -> Result<(), AllocError>
    ensures { IfOk result (λ _. set.new.items ≡ set.old.items ++ delete_line script ++ put_line script 0 number ++ codes "print(a.c);\n") }
{
    set.extend_from_slice(&delete_line(alloc, script)?)?;
    add_put(alloc, set, script, 0, number)?;
    set.extend_from_slice(b"print(a.c);\n")
}

// Adds a line that puts a number under a name.
fn add_put(
    alloc: Global,
    set: &mut Vec<u8>,
    script: u32,
    name: u32,
    number: u32,
) -> Result<(), AllocError>
    ensures { IfOk result (λ _. set.new.items ≡ set.old.items ++ put_line script name number) }
{
    let line = put_line(alloc, script, name, number)?;
    set.extend_from_slice(&line)
}

// The beginning of a script, which shares a new object.
fn opening(alloc: Global, script: u32) -> Result<Vec<u8>, AllocError>
    ensures { IfOk result (λ text. text.items ≡ opening script) }
{
    let text = format!(in alloc; "let a = {{}};\nshared.s{script} = a;\n")?;
    Ok(text.into_bytes())
}

fn put_line(alloc: Global, script: u32, name: u32, number: u32) -> Result<Vec<u8>, AllocError>
    ensures { IfOk result (λ text. text.items ≡ put_line script name number) }
{
    let text = format!(in alloc; "shared.n{script}_{name} = {number};\n")?;
    Ok(text.into_bytes())
}

// The two halves of it.
fn loop_head(alloc: Global, number: u32) -> Result<Vec<u8>, AllocError>
    ensures { IfOk result (λ text. text.items ≡ loop_head number) }
{
    let text = format!(in alloc; "let i = 0;\nwhile (i < 1000) {{ a[i] = i + {number}; ")?;
    Ok(text.into_bytes())
}

fn loop_tail(alloc: Global, script: u32) -> Result<Vec<u8>, AllocError>
    ensures { IfOk result (λ text. text.items ≡ loop_tail script) }
{
    let text = format!(in alloc; "a.c = i; shared[{script}00 + i % 100] = i; i += 1; }}\n")?;
    Ok(text.into_bytes())
}

fn delete_line(alloc: Global, script: u32) -> Result<Vec<u8>, AllocError>
    ensures { IfOk result (λ text. text.items ≡ delete_line script) }
{
    let text = format!(in alloc; "delete shared.n{script}_0;\n")?;
    Ok(text.into_bytes())
}

// The number that is drawn after this one.
fn next_draw(before: u32) -> u32
    requires { before < 1009 }
    ensures draw { result ≡ next_draw before }
    ensures below { result < 1009 }
{
    (37 * before + 11) % DRAWS
}
