// SPDX-License-Identifier: MIT OR Apache-2.0
// The help that the program prints about its command line.
ghost use Rattle.std.specs.Prelude.{◌≡◌, ◌∷◌, ◌↔◌, [], codes, IsTrue};
ghost use Rattle.program_base.specs.CommandLine.{texts};
ghost use Rattle.program_base.specs.Pages.{page_of, page_named};

/// A page of help.
#[derive(Clone, Copy)]
pub(crate) enum Page {
    /// The page of the whole program.
    Program,
    Run,
    Replay,
    Trace,
    Judge,
    Decode,
}

const PROGRAM: &str = "\
usage: bsc COMMAND

  run --config FILE [--record FOLDER [--record-size MIB]]
      relays between the switch and the base stations that the settings in FILE
      name, until every link has ended; standard error tells of each link; with
      --record it also writes each step of the controller into files of FOLDER
  replay [--config FILE] [--break N | --strict]
      reads a script on standard input, an event a line, and prints what each
      end sent, took and accepted: in a world with one mobile on one channel, or
      in the world of the settings in FILE; with --break, for each place of the
      script how many messages were accepted and sent if the link of source N
      broke there; with --strict it ends with 4 where an event wasn't taken
  trace --config FILE [--strict] [--chart[=text|svg]] [--capture FILE]
      reads a script as replay does, and prints each event and the frames that
      crossed a link at it; with --strict it ends with 4 where an event wasn't
      taken; with --chart it draws a chart in place of these lines, as text or
      in the form of SVG; with --capture it also writes the frames into a file
      that Wireshark opens
  judge [--settings FILE] [--strict] [--tap]
      reads the frames on the links of a controller on standard input, in the
      lines of trace or examples/frames-of, and says of each connection whether
      its messages were kept in order, and whose fault it was where they weren't
  rerun [--settings FILE] [--compare] [--conn N] [--cell N] [--from TIME]
        [--to TIME] FILE ..
      gives the steps of a recorded run to the same controller again, and prints
      the lines of trace, with the time of day; it ends with 5 where the
      controller puts other frames than the record has
  decode [--long]
      reads the octets of an IPA link on standard input, and prints the name of
      each frame; with --long also what else it says, and its octets

'bsc COMMAND --help' tells more of a command, 'bsc --version' the version.";

const RUN: &str = "\
usage: bsc run --config FILE [--record FOLDER [--record-size MIB]]

  relays between the switch and the base stations that the settings in FILE
  name, until every link has ended

  --config FILE
      the settings, a text in TOML
  --record FOLDER
      also writes each step of the controller, with the frames that it takes and
      puts, into files of this folder, with the time of day and a number from 1
      in their names; they hold subscribers' messages
  --record-size MIB
      how large such a file becomes before the next one begins: 1024 by default

  Standard error tells of each link. BSC_LOG says from which level on: error,
  warn, info (the default) or off. BSC_LOG_STYLE says what a line begins with:
  plain (the default) for nothing, journal for its severity, time for the time.

  status 0: every link has ended. 1: the settings have a fault, which is told in
  two lines. 2: the words have one. 3: memory ran out, or a link or the record
  couldn't be opened.";

const REPLAY: &str = "\
usage: bsc replay [--config FILE] [--break N | --strict]

  reads a script on standard input, an event a line, and prints what each end
  sent, took and accepted

  --config FILE
      in the world of these settings, a text in TOML; else in a world with one
      mobile on one channel
  --break N
      for each place of the script how many messages were accepted and sent if
      the link of source N broke there: 0 is the switch, a number from 1 on the
      cell's station; wants --config
  --strict
      ends with status 4 where an event wasn't taken; wants --config

  status 0: done. 1: the settings have a fault. 2: the words, N or a line of the
  script have one. 3: memory ran out, or a device failed. 4: an event wasn't
  taken, or with --break more messages were accepted than sent.";

const TRACE: &str = "\
usage: bsc trace --config FILE [--strict] [--chart[=text|svg]] [--capture FILE]

  reads a script as replay does, and prints each event and the frames that
  crossed a link at it

  --config FILE
      in the world of these settings, a text in TOML
  --strict
      ends with status 4 where an event wasn't taken
  --chart[=text|svg]
      draws a chart in place of these lines, as text or in the form of SVG
  --capture FILE
      also writes the frames that were put on a link into this file, in the form
      of pcap, which Wireshark opens

  status 0: done. 1: the settings have a fault. 2: the words or a line of the
  script have one. 3: memory ran out, or a device failed. 4: an event wasn't
  taken.";

const JUDGE: &str = "\
usage: bsc judge [--settings FILE] [--strict] [--tap]

  reads the frames on the links of one controller on standard input, in the
  lines of trace or examples/frames-of, and says of each connection whether its
  messages were kept in order: the first one lost, doubled, overtaken, changed
  or made up, what a switch by TS 24.007 makes of those that it got, and what
  was a station's fault or a mobile's

  --settings FILE
      the settings, a text in TOML, which say how many numbers messages have,
      four without them, and name the cells
  --strict
      counts a connection that isn't judged to its end as one not in order
  --tap
      prints a test point a connection, in the form of TAP, version 14

  status 0: every connection is in order. 1: one isn't. 2: the words, the
  settings or a line have a fault. 3: memory ran out, or a device failed.";

const DECODE: &str = "\
usage: bsc decode [--long]

  reads the octets of an IPA link on standard input, and prints the name of each
  frame

  --long
      prints behind it the name of the message inside the frame; then, each
      behind a tab, its channel, references and number N(SD), and the octets of
      its body

  status 0: done. 2: the words have a fault. 3: memory ran out, a device failed,
  or the octets are no frames.";

impl Page {
    /// The page that a request for help asks for: the page of the first command that the words
    /// name, or `Program` if they name none.
    pub(crate) fn of(words: &[&str]) -> Page
        ensures { result ≡ page_of (texts words.now) }
    {
        for word in words {
            if let Some(page) = Page::named(word) {
                return page;
            }
        }
        Page::Program
    }

    /// The page of the command with this name, or `None` if there is no such command.
    fn named(name: &str) -> Option<Page>
        ensures { result ≡ page_named name.now }
    {
        match name {
            "run" => Some(Page::Run),
            "replay" => Some(Page::Replay),
            "trace" => Some(Page::Trace),
            "judge" => Some(Page::Judge),
            "decode" => Some(Page::Decode),
            _ => None,
        }
    }

    /// The text of the page.
    pub(crate) fn text(self) -> &'static str {
        match self {
            Page::Program => PROGRAM,
            Page::Run => RUN,
            Page::Replay => REPLAY,
            Page::Trace => TRACE,
            Page::Judge => JUDGE,
            Page::Decode => DECODE,
        }
    }
}

/// Whether the words are `help` and `name`, and no others.
pub(crate) fn asks_of(words: &[&str], name: &str) -> bool
    ensures { IsTrue result ↔ (texts words.now ≡ codes "help" ∷ name.now ∷ []) }
{
    match words {
        [help, other] => *help == "help" && *other == name,
        _ => false,
    }
}

/// Whether the words are `--version` alone.
pub(crate) fn is_version(words: &[&str]) -> bool
    ensures { IsTrue result ↔ (texts words.now ≡ codes "--version" ∷ []) }
{
    match words {
        [word] => *word == "--version",
        _ => false,
    }
}
