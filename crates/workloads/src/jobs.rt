// SPDX-License-Identifier: MIT OR Apache-2.0
//! The jobs, over inputs drawn from a seed.
use bsc_program::replay;
use dtap_codec::Modulus;
use frame_words::decode_long;
use judge_program::{Form as VerdictForm, Strictness, Style, judge};
use program_base::decode;
use std::alloc::Global;
use std::io::{self, BufWriter};
use std::sync::Wait;
use trace_pictures::{Form, captured, drawn, whole_script};
use trace_program::trace;
use workload_inputs::{
    Digest, Draw, Pieces, Plan, Shape, Stop, capture, fixed_script, play, script, settings_text,
};

/// A job that a user waits for.
#[derive(Clone, Copy)]
pub(crate) enum Job {
    /// Calls in progress: measurement results, and messages in both directions.
    Relay,
    /// Calls from their setup over a handover to their release, and many calls that end at once.
    Calls,
    /// Replays of long scripts.
    Replay,
    /// Replays of scripts in which a link breaks at each place.
    Breaks,
    /// Traces of scripts as lines, as a capture and as a chart.
    Trace,
    /// The names of the frames of captured links.
    Decode,
    /// Judgements of the frames that scripts put.
    Judge,
}

/// How much of a job is done.
#[derive(Clone, Copy)]
pub(crate) enum Size {
    /// So little that the job takes hardly any time.
    Small,
    Whole,
}

impl Size {
    /// The amount `whole`, or about a hundredth of it for `Small`.
    fn of(self, whole: u32) -> u32 {
        match self {
            Size::Small => whole / 100 + 2,
            Size::Whole => whole,
        }
    }

    /// The number of times `whole`, or once for `Small`.
    fn times(self, whole: u32) -> u32 {
        match self {
            Size::Small => 1,
            Size::Whole => whole,
        }
    }
}

/// The job with this name; `None` if there is no such job.
pub(crate) fn job_of(word: &str) -> Option<Job> {
    match word {
        "relay" => Some(Job::Relay),
        "calls" => Some(Job::Calls),
        "replay" => Some(Job::Replay),
        "breaks" => Some(Job::Breaks),
        "trace" => Some(Job::Trace),
        "decode" => Some(Job::Decode),
        "judge" => Some(Job::Judge),
        _ => None,
    }
}

/// Does a job, and returns the digest of all its results.
pub(crate) fn done<R: Wait>(
    rt: &R,
    alloc: Global,
    job: Job,
    seed: u32,
    size: Size,
) -> Result<u64, Stop> {
    let mut draw = Draw::new(u64::from(seed));
    let mut digest = Digest::new();
    match job {
        Job::Relay => relays(rt, alloc, size, &mut draw, &mut digest)?,
        Job::Calls => calls(rt, alloc, size, &mut draw, &mut digest)?,
        Job::Replay => replays(alloc, size, &mut draw, &mut digest)?,
        Job::Breaks => breaks(alloc, size, &mut draw, &mut digest)?,
        Job::Trace => traces(alloc, size, &mut draw, &mut digest)?,
        Job::Decode => decodes(alloc, size, &mut draw, &mut digest)?,
        Job::Judge => judges(alloc, size, &mut draw, &mut digest)?,
    }
    Ok(digest.sum())
}

/// Plays two networks: one in which the links of all 32 stations carry frames, and one in which
/// only one station's link does.
fn relays<R: Wait>(
    rt: &R,
    alloc: Global,
    size: Size,
    draw: &mut Draw,
    digest: &mut Digest,
) -> Result<(), Stop> {
    let all = Plan {
        cells: 32,
        busy: 32,
        mobiles: 63,
        lives: 1,
        talks: size.of(500),
        interval: 6,
        ms: 9,
        reports: true,
        moves: false,
        breaks: false,
    };
    let one = Plan {
        busy: 1,
        talks: size.of(5_000),
        ms: 290,
        ..all
    };
    digest.add_number(play(rt, alloc, all, Draw::new(draw.next()))?);
    digest.add_number(play(rt, alloc, one, Draw::new(draw.next()))?);
    Ok(())
}

/// Plays calls with a handover, and connections that all end at once.
fn calls<R: Wait>(
    rt: &R,
    alloc: Global,
    size: Size,
    draw: &mut Draw,
    digest: &mut Digest,
) -> Result<(), Stop> {
    let lives = Plan {
        cells: 8,
        busy: 8,
        mobiles: 30,
        lives: size.of(240),
        talks: 6,
        interval: 1,
        ms: 5,
        reports: false,
        moves: true,
        breaks: false,
    };
    let ends = Plan {
        cells: 32,
        busy: 32,
        mobiles: 63,
        lives: 2,
        talks: 2,
        moves: false,
        breaks: true,
        ..lives
    };
    digest.add_number(play(rt, alloc, lives, Draw::new(draw.next()))?);
    for _ in 0..size.times(16) {
        digest.add_number(play(rt, alloc, ends, Draw::new(draw.next()))?);
    }
    Ok(())
}

/// The shape of a script of this size.
fn shape(cells: u16, mobiles: u8, lines: u32) -> Shape {
    Shape {
        cells,
        mobiles,
        lines,
    }
}

/// Replays scripts of the fixed world, and of worlds with a controller.
fn replays(alloc: Global, size: Size, draw: &mut Draw, digest: &mut Digest) -> Result<(), Stop> {
    let shapes = [
        shape(2, 1, size.of(150_000)),
        shape(2, 20, size.of(150_000)),
        shape(32, 200, size.of(300_000)),
    ];
    for _ in 0..size.times(5) {
        let text = fixed_script(alloc, size.of(200_000), draw)?;
        replayed(alloc, None, None, text.as_slice(), digest)?;
        for shape in shapes {
            let settings = settings_text(alloc, shape.cells, 1)?;
            let text = script(alloc, shape, draw)?;
            replayed(
                alloc,
                Some(settings.as_str()),
                None,
                text.as_slice(),
                digest,
            )?;
        }
    }
    Ok(())
}

fn breaks(alloc: Global, size: Size, draw: &mut Draw, digest: &mut Digest) -> Result<(), Stop> {
    let shapes = [shape(2, 6, size.of(1_500)), shape(32, 12, size.of(400))];
    for shape in shapes {
        let settings = settings_text(alloc, shape.cells, 1)?;
        let text = script(alloc, shape, draw)?;
        for source in ["0", "1"] {
            let settings = Some(settings.as_str());
            replayed(alloc, settings, Some(source), text.as_slice(), digest)?;
        }
    }
    Ok(())
}

/// Replays a script, and adds the report of the script to the digest.
fn replayed(
    alloc: Global,
    settings: Option<&str>,
    source: Option<&str>,
    text: &[u8],
    digest: &mut Digest,
) -> Result<(), Stop> {
    let mut input = Pieces::new(text, 1 << 16);
    let mut errors = io::sink();
    let mut output = BufWriter::new(alloc, Digest::new()).map_err(|_| Stop::Memory)?;
    let status = replay(
        alloc,
        settings,
        source,
        &mut input,
        &mut output,
        &mut errors,
    );
    add(digest, status, &output)
}

/// Adds the output of a command to the digest. `Err` if the command's status isn't 0. The status of
/// a trace is 0 only if each event of its script was taken.
fn add(digest: &mut Digest, status: u8, output: &BufWriter<Digest, Global>) -> Result<(), Stop> {
    if status != 0 {
        return Err(Stop::Refused);
    }
    digest.add_number(output.get_ref().sum());
    Ok(())
}

fn traces(alloc: Global, size: Size, draw: &mut Draw, digest: &mut Digest) -> Result<(), Stop> {
    let shapes = [
        shape(2, 1, size.of(240_000)),
        shape(2, 20, size.of(160_000)),
        shape(32, 200, size.of(100_000)),
    ];
    for shape in shapes {
        let settings = settings_text(alloc, shape.cells, 1)?;
        let text = script(alloc, shape, draw)?;
        traced(alloc, settings.as_str(), text.as_slice(), digest)?;
    }
    pictured(alloc, shape(2, 10, size.of(40_000)), draw, digest)
}

/// Traces a script, and adds the trace to the digest.
fn traced(alloc: Global, settings: &str, text: &[u8], digest: &mut Digest) -> Result<(), Stop> {
    let mut input = Pieces::new(text, 1 << 16);
    let mut errors = io::sink();
    let mut output = BufWriter::new(alloc, Digest::new()).map_err(|_| Stop::Memory)?;
    let status = trace(alloc, settings, true, &mut input, &mut output, &mut errors);
    add(digest, status, &output)
}

/// Makes a capture and a chart of a script, and adds them to the digest.
fn pictured(alloc: Global, shape: Shape, draw: &mut Draw, digest: &mut Digest) -> Result<(), Stop> {
    let settings = settings_text(alloc, shape.cells, 1)?;
    let text = script(alloc, shape, draw)?;
    let mut input = Pieces::new(text.as_slice(), 1 << 16);
    let Ok(script) = whole_script(alloc, settings.as_str(), &mut input) else {
        return Err(Stop::Refused);
    };
    let Ok(file) = captured(alloc, settings.as_str(), script.events.as_slice()) else {
        return Err(Stop::Refused);
    };
    digest.add(file.as_slice());
    let Ok(chart) = drawn(alloc, settings.as_str(), &script, Form::Text) else {
        return Err(Stop::Refused);
    };
    digest.add(chart.as_slice());
    Ok(())
}

/// Names the frames of captured links. Two of these arrive in large blocks, one arrives octet by
/// octet.
fn decodes(alloc: Global, size: Size, draw: &mut Draw, digest: &mut Digest) -> Result<(), Stop> {
    let inputs = [
        (size.of(12_000_000), 1 << 20, false),
        (size.of(200_000), 1, false),
        (size.of(6_000_000), 1 << 16, true),
    ];
    for _ in 0..size.times(5) {
        for (count, piece, is_long) in inputs {
            decoded(alloc, count as usize, piece, is_long, draw, digest)?;
        }
    }
    Ok(())
}

/// Names the frames of a captured link. The link has at least `count` octets, which arrive in
/// pieces of `piece` octets.
fn decoded(
    alloc: Global,
    count: usize,
    piece: usize,
    is_long: bool,
    draw: &mut Draw,
    digest: &mut Digest,
) -> Result<(), Stop> {
    let octets = capture(alloc, count, draw)?;
    let mut input = Pieces::new(octets.as_slice(), piece);
    let mut errors = io::sink();
    let mut output = BufWriter::new(alloc, Digest::new()).map_err(|_| Stop::Memory)?;
    let status = if is_long {
        decode_long(alloc, &mut input, &mut output, &mut errors)
    } else {
        decode(alloc, &mut input, &mut output, &mut errors)
    };
    add(digest, status, &output)
}

/// Judges the lines of each of several traces, many times.
fn judges(alloc: Global, size: Size, draw: &mut Draw, digest: &mut Digest) -> Result<(), Stop> {
    let shapes = [
        shape(2, 20, size.of(160_000)),
        shape(32, 200, size.of(100_000)),
    ];
    for shape in shapes {
        let settings = settings_text(alloc, shape.cells, 1)?;
        let text = script(alloc, shape, draw)?;
        let lines = trace_lines(alloc, settings.as_str(), text.as_slice())?;
        for _ in 0..size.times(20) {
            judged(alloc, lines.as_slice(), digest)?;
        }
    }
    Ok(())
}

/// The lines of a script's trace.
fn trace_lines(alloc: Global, settings: &str, text: &[u8]) -> Result<Vec<u8>, Stop> {
    let mut input = Pieces::new(text, 1 << 16);
    let mut errors = io::sink();
    let mut lines = Vec::new(alloc);
    match trace(alloc, settings, true, &mut input, &mut lines, &mut errors) {
        0 => Ok(lines),
        _ => Err(Stop::Refused),
    }
}

/// Judges the frames in these lines, which are those of a network whose cells aren't known.
fn judged(alloc: Global, lines: &[u8], digest: &mut Digest) -> Result<(), Stop> {
    let style = Style {
        modulus: Modulus::Four,
        form: VerdictForm::Text,
        strictness: Strictness::Lenient,
    };
    let mut input = Pieces::new(lines, 1 << 16);
    let mut errors = io::sink();
    let mut output = BufWriter::new(alloc, Digest::new()).map_err(|_| Stop::Memory)?;
    let cells = Vec::new(alloc);
    let status = judge(alloc, style, cells, &mut input, &mut output, &mut errors);
    add(digest, status, &output)
}
