// Standard input and output of a printing program. If one fails, a line on standard error says so.
ghost use Rattle.std.specs.Prelude.{◌≤◌, length, IfSome};

use std::io::{Read, Write};
use std::rt::{HostRuntime, Stdin};

// Writes a line of a program on standard error. Where that fails, nothing is left to say so on.
pub fn say(rt: HostRuntime, program: &[u8], line: &[u8]) {
    let mut error = rt.stderr();
    let _ = error.write_all(program);
    let _ = error.write_all(line);
}

// How many bytes one read gives: none at the end of an input, and none where the read fails.
fn read_some(stdin: &mut Stdin, buffer: &mut [u8]) -> usize
    ensures { result ≤ length buffer.new }
{
    stdin.read(buffer).unwrap_or(0)
}

// Reads until a buffer is full, or a read gives nothing.
fn read_full(stdin: &mut Stdin, buffer: &mut [u8]) -> usize
    ensures { result ≤ length buffer.new }
{
    let mut done = 0;
    while done < buffer.len() {
        let n = read_some(stdin, &mut buffer[done..]);
        if n == 0 {
            break;
        }
        done += n;
    }
    done
}

// Whether standard input is at its end. A read that fails is not the end, and neither is one that gives more.
fn is_at_end(stdin: &mut Stdin) -> bool {
    let mut next = [0u8; 1];
    matches!(stdin.read(&mut next), Ok(0))
}

// Whether an input of so many bytes filled its buffer, or was read to its end.
fn is_read(stdin: &mut Stdin, n: usize, size: usize) -> bool {
    n == size || is_at_end(stdin)
}

// Reads an input into a buffer that has one byte more than the longest input whose text is printed, and tells how many bytes it has.
pub fn read_input(rt: HostRuntime, program: &[u8], input: &mut [u8]) -> Option<usize>
    ensures { IfSome result (λ n. n ≤ length input.new) }
{
    let mut stdin = rt.stdin();
    let n = read_full(&mut stdin, input);
    if is_read(&mut stdin, n, input.len()) {
        return Some(n);
    }
    say(
        rt,
        program,
        b": standard input cannot be read to its end; give it a file or a pipe\n",
    );
    None
}

// Writes all of a text on standard output. No contract can say what is written.
pub fn write_text(rt: HostRuntime, program: &[u8], text: &[u8]) {
    let mut output = rt.stdout();
    if output.write_all(text).is_err() {
        say(
            rt,
            program,
            b": standard output cannot be written whole; make room, or write to another file\n",
        );
    }
}
