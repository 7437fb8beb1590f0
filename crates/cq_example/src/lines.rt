//! The lines of generators and of equations, each appended to what stands before it.
ghost use Rattle.std.specs.Prelude.{◌≡◌, ◌++◌, ◌+◌, ◌<◌, ◌^◌, OnOk};
ghost use Rattle.std.specs.List.{flat_map};
ghost use Rattle.cq_example.specs.Text.{equation_line, generator, generator_line, up_to};

use itoa::Buffer;
use std::alloc::AllocError;

/// Appends the lines of the generators from 1 to `count`.
pub fn push_generators(count: u32, text: &mut Vec<u8>) -> Result<(), AllocError>
    ensures { OnOk result (text.new.items ≡ text.old.items ++ flat_map generator_line (up_to count)) }
{
    for before in 0..count {
        push_generator_line(before + 1, text)?;
    }
    Ok(())
}

/// Appends the lines of the equations from 1 to `count`.
pub fn push_equations(count: u32, text: &mut Vec<u8>) -> Result<(), AllocError>
    requires { count + 1 < 2 ^ 32 }
    ensures { OnOk result (text.new.items ≡ text.old.items ++ flat_map equation_line (up_to count)) }
{
    for before in 0..count {
        push_equation_line(before + 1, text)?;
    }
    Ok(())
}

fn push_generator_line(number: u32, text: &mut Vec<u8>) -> Result<(), AllocError>
    ensures { OnOk result (text.new.items ≡ text.old.items ++ generator_line number) }
{
    push_generator(number, text)?;
    text.extend_from_slice(b" : E\n")?;
    Ok(())
}

fn push_equation_line(number: u32, text: &mut Vec<u8>) -> Result<(), AllocError>
    requires { number + 1 < 2 ^ 32 }
    ensures { OnOk result (text.new.items ≡ text.old.items ++ equation_line number) }
{
    text.extend_from_slice(b"f(")?;
    push_generator(number, text)?;
    text.extend_from_slice(b") = f(")?;
    push_generator(number + 1, text)?;
    text.extend_from_slice(b")\n")?;
    Ok(())
}

/// Appends the name of a generator.
fn push_generator(number: u32, text: &mut Vec<u8>) -> Result<(), AllocError>
    ensures { OnOk result (text.new.items ≡ text.old.items ++ generator number) }
{
    let mut buffer = Buffer::new();
    text.extend_from_slice(b"x")?;
    text.extend_from_slice(buffer.format(number).as_bytes())?;
    Ok(())
}
