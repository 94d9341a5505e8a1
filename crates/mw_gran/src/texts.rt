//! The text of a curve.

ghost use Rattle.std.specs.Prelude.{◌≡◌, ◌++◌, ◌∷◌, [], IfOk, codes, decimal};
ghost use Rattle.mw_model.specs.Curves.{line, volume_lines, fall_lines, rest_line, curve_text};

use mw_model::NoMemory;
use std::alloc::Global;

/// Appends a number in decimal digits.
fn push_number(alloc: Global, text: &mut Vec<u8>, n: u64) -> Result<(), NoMemory>
    ensures { IfOk result (λ _. text.new.items ≡ text.old.items ++ decimal n) }
{
    let digits = n.to_string(alloc)?;
    text.extend_from_slice(digits.as_bytes())?;
    Ok(())
}

/// Appends a line of a letter, a number and a value.
fn push_line(
    alloc: Global,
    text: &mut Vec<u8>,
    word: &[u8],
    n: u64,
    value: u64,
) -> Result<(), NoMemory>
    ensures { IfOk result (λ _. text.new.items ≡ text.old.items ++ line word.now n value) }
{
    text.extend_from_slice(word)?;
    push_number(alloc, text, n)?;
    text.extend_from_slice(b" ")?;
    push_number(alloc, text, value)?;
    text.push(b'\n')?;
    Ok(())
}

fn push_volumes(alloc: Global, text: &mut Vec<u8>, volumes: &[u64]) -> Result<(), NoMemory>
    ensures { IfOk result (λ _. text.new.items ≡ text.old.items ++ volume_lines 0 volumes.now) }
{
    for i in 0..volumes.len() {
        push_line(alloc, text, b"V ", i as u64, volumes[i])?;
    }
    Ok(())
}

fn push_falls(alloc: Global, text: &mut Vec<u8>, volumes: &[u64]) -> Result<(), NoMemory>
    ensures { IfOk result (λ _. text.new.items ≡ text.old.items ++ fall_lines 0 volumes.now) }
{
    for i in 0..volumes.len().saturating_sub(1) {
        push_line(
            alloc,
            text,
            b"S ",
            i as u64,
            volumes[i].saturating_sub(volumes[i + 1]),
        )?;
    }
    Ok(())
}

fn push_rest(alloc: Global, text: &mut Vec<u8>, volumes: &[u64]) -> Result<(), NoMemory>
    ensures { IfOk result (λ _. text.new.items ≡ text.old.items ++ rest_line volumes.now) }
{
    let count = volumes.len();
    if count == 0 {
        return Ok(());
    }
    text.extend_from_slice(b"R ")?;
    push_number(alloc, text, volumes[count - 1])?;
    text.push(b'\n')?;
    Ok(())
}

/// The lines of the volumes, those of the falls from each volume to the next, and that of the last volume.
pub fn curve_text(alloc: Global, volumes: &[u64]) -> Result<Vec<u8>, NoMemory>
    ensures { IfOk result (λ t. t.items ≡ curve_text volumes.now) }
{
    let mut text = Vec::new(alloc);
    push_volumes(alloc, &mut text, volumes)?;
    push_falls(alloc, &mut text, volumes)?;
    push_rest(alloc, &mut text, volumes)?;
    Ok(text)
}
