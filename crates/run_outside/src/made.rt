//! The made input of `bench`.

ghost use Rattle.std.specs.Prelude.{◌≡◌, ◌≤◌, ◌^◌, IfOk};
ghost use Rattle.link_script.specs.Scripts.{HasRanges};
ghost use Rattle.run_outside.specs.MadeInput.{words_at, drawn_octets, path_line, made_paths, segment, made_lines, made_script, made_file};

use crate::input::Input;
use link_script::{Happens, PathLine, PathLines, Script, ScriptLine, ScriptLines, Segment};
use octet_text::Text;
use rand_chacha::ChaCha20Rng;
use rand_core::SeedableRng;
use rand_core::utils::fill_bytes_via_u32;
use sides::Side;
use std::alloc::{AllocError, Global};

/// The words of a stream, before the first one is drawn.
fn words_of(seed: u64, stream: u64) -> ChaCha20Rng
    ensures { result ≡ words_at seed stream 0 }
{
    let mut key = [0; 32];
    key[..8].copy_from_slice(&seed.to_le_bytes());
    let mut words = ChaCha20Rng::from_seed(key);
    words.set_stream(stream);
    words
}

/// The octets of the first words of a stream, each word least octet first.
fn drawn_octets(alloc: Global, seed: u64, stream: u64, count: usize) -> Result<Vec<u8>, AllocError>
    requires { count ≤ 2 ^ 32 }
    ensures { IfOk result (λ octets. octets.items ≡ drawn_octets seed stream count) }
{
    let mut words = words_of(seed, stream);
    let mut octets = vec![in alloc; 0; 4 * count]?;
    fill_bytes_via_u32(&mut words, octets.as_mut_slice());
    Ok(octets)
}

/// A file of the made input of this number: 65,536 octets times the number.
fn made_file(alloc: Global, number: u16, stream: u64) -> Result<Text, AllocError>
    ensures { IfOk result (λ file. file ≡ made_file number stream) }
{
    let count = 16_384 * usize::from(number);
    let octets = drawn_octets(alloc, u64::from(number), stream, count)?;
    Text::from(octets).share()
}

fn path(mss: u16, delay: u32, join: u64) -> PathLine
    ensures { result ≡ path_line mss delay join }
{
    PathLine {
        mss,
        delay,
        join,
        backup: false,
    }
}

/// Four paths, ever slower; the later ones join at 100, 200 and 300.
fn made_paths(alloc: Global) -> Result<PathLines, AllocError>
    ensures { IfOk result (λ paths. paths ≡ made_paths) }
{
    let lines = vec![in alloc;
        path(1400, 10, 0),
        path(1200, 20, 100),
        path(1000, 30, 200),
        path(800, 40, 300),
    ]?;
    Ok(PathLines::from(lines))
}

fn segment(path: u8, from: Side, number: u32) -> Segment
    ensures { result ≡ segment path from number }
{
    Segment { path, from, number }
}

/// Two segments are lost, and path 3 dies.
fn made_lines(alloc: Global) -> Result<ScriptLines, AllocError>
    ensures { IfOk result (λ lines. lines ≡ made_lines) }
{
    let lines = vec![in alloc;
        ScriptLine::OnSegment(segment(0, Side::A, 50), Happens::Lost),
        ScriptLine::OnSegment(segment(1, Side::B, 20), Happens::Lost),
        ScriptLine::Die {
            path: 3,
            tick: 2000,
        },
    ]?;
    Ok(ScriptLines::from(lines))
}

/// The script of the made input of this number.
fn made_script(alloc: Global, number: u16) -> Result<Script, AllocError>
    ensures { IfOk result (λ script. script ≡ made_script number) }
{
    Ok(Script {
        seed: u64::from(number),
        checksum: true,
        short: false,
        buffer: 262_144,
        paths: made_paths(alloc)?,
        lines: made_lines(alloc)?,
    })
}

/// The made input of this number: its script, and a file of 65,536 octets times the number for each side.
pub fn made_input(alloc: Global, number: u16) -> Result<Input, AllocError>
    ensures script { IfOk result (λ input. input.script ≡ made_script number) }
    ensures file_a { IfOk result (λ input. input.file_a ≡ made_file number 1000) }
    ensures file_b { IfOk result (λ input. input.file_b ≡ made_file number 1001) }
    ensures ranges { IfOk result (λ input. HasRanges input.script) }
{
    Ok(Input {
        script: made_script(alloc, number)?,
        file_a: made_file(alloc, number, 1000)?,
        file_b: made_file(alloc, number, 1001)?,
    })
}
