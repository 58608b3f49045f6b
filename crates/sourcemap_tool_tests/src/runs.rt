// Tests of `run`, `reply_to`, `parse_words` and `apply`.
use crate::memory::unless_out;
use sourcemap::decode_slice;
use sourcemap_cache::WithContents;
use sourcemap_cli::command::{Command, parse_words};
use sourcemap_cli::output::apply;
use sourcemap_cli::program::{reply_to, run};
use sourcemap_trace::Counting;
use std::alloc::{AllocError, Global};
use std::test::Fail;

pub const MAP: &str =
    r#"{"version":3,"sources":["coolstuff.js"],"names":["x","alert"],"mappings":"AAAA,GAAIA,GAAI,EACR,IAAIA,GAAK,EAAG,CACVC,MAAM"}"#;

pub const USAGE: &str =
    "usage: lookup [--from-1] LINE COL | tokens | rewrite | flatten | compose FILE | shift ROWS | trace [--from-1] FILE | compile [--without-contents] | check [--json] [--strict] [--generated FILE] [--name NAME] [--sources DIR]\n";

// Words, a map, and the status and output of the run.
pub const RUNS: &str = r#"lookup 0 5|MAP|0 coolstuff.js:0:4 name=x
lookup 0 0|MAP|0 coolstuff.js:0:0
lookup 0 18|MAP|0 coolstuff.js:2:2 name=alert
lookup 1 0|MAP|0 coolstuff.js:2:8
lookup 4294967295 4294967295|MAP|0 coolstuff.js:2:8
lookup 0 5|{"sources":["a.js"],"mappings":"AAAO","rangeMappings":"B"}|0 a.js:0:12
lookup 3 5|{"sources":["a.js"],"mappings":"AAAO","rangeMappings":"B"}|0 a.js:0:7
lookup 0 5|{"mappings":"A","rangeMappings":"B"}|0 <unknown>:4294967295:4294967295
lookup 0 0|{}|0 none
lookup 0 0||1 bad json: the text is not JSON
lookup 0 0|[]|1 bad json: a field has the wrong type
lookup 0 0|{"version":4294967296}|1 bad json: a field has the wrong type
lookup 0 0|{"mappings":"AAAAAA"}|1 got 6 segments, expected 4 or 5
lookup 0 0|{"mappings":"AAAA"}|1 bad reference to source #0
lookup 0 0|{"sources":["a.js"],"mappings":"AAAAA"}|1 bad reference to name #0
lookup 0 0|{"mappings":"A!"}|1 invalid base64 character: !
lookup 0 0|{"mappings":"A","rangeMappings":"!"}|1 invalid base64 character: !
lookup 0 0|{"sources":["a.js"],"mappings":"ggggggggggggI"}|1 vlq decode caused an overflow
lookup 0 0|{"sources":["a.js"],"mappings":"g"}|1 leftover cur/shift in vlq decode
lookup 0 0|{"mappings":"gggggggggggggA"}|1 vlq decode caused an overflow
lookup 0 0|{"mappings":"Aé"}|1 invalid base64 character: Ã
lookup 0 0|{"mappings":"A","rangeMappings":"é"}|1 invalid base64 character: Ã
lookup 0 0|{"mappings":";,;,"}|0 none
lookup 0 0|{"sections":[]}|0 none
lookup 10 4|TWO|0 b.js:0:0
lookup 10 9|TWO|0 b.js:0:0
lookup 10 3|TWO|0 a.js:0:0
lookup 0 0|{"x_facebook_sources":[]}|0 none
lookup 0 9|HERMES|0 b.js:0:0
lookup --from-1 1 6|MAP|0 coolstuff.js:1:5 name=x
lookup --from-1 0001 00000000000000000006|MAP|0 coolstuff.js:1:5 name=x
lookup --from-1 1 1|MAP|0 coolstuff.js:1:1
lookup --from-1 1 19|MAP|0 coolstuff.js:3:3 name=alert
lookup --from-1 2 1|MAP|0 coolstuff.js:3:9
lookup --from-1 4294967296 4294967296|MAP|0 coolstuff.js:3:9
lookup --from-1 1 6|{"sources":["a.js"],"mappings":"AAAO","rangeMappings":"B"}|0 a.js:1:13
lookup --from-1 1 6|{"mappings":"A","rangeMappings":"B"}|0 <unknown>:4294967296:4294967296
lookup --from-1 1 1|{}|0 none
lookup --from-1 11 5|TWO|0 b.js:1:1
lookup --from-1 11 4|TWO|0 a.js:1:1
lookup --from-1 1 10|HERMES|0 b.js:1:1
lookup --from-1 1 1|[]|1 bad json: a field has the wrong type
tokens|{"sources":["a.js"],"mappings":"AAAO","rangeMappings":"B"}|0 0:0 a.js:0:7 range
tokens|{"sources":["a.js"],"mappings":"AADA"}|0 0:0 a.js:4294967295:0
tokens|{"mappings":"ggggggggggggH"}|0 0:0 <unknown>:4294967295:4294967295
tokens|{"sections":[]}|1 encountered incompatible sourcemap format
tokens|HERMES|0 0:0 b.js:0:0
rewrite|MAP|0 {"mappings":"AAAA,GAAIA,GAAI,EACR,IAAIA,GAAK,EAAG,CACVC,MAAM","names":["x","alert"],"sources":["coolstuff.js"],"version":3}
rewrite|{"sources":["a.js","b.js"],"sourcesContent":["x","y"],"mappings":"ACAA","sourceRoot":"r"}|0 {"mappings":"AAAA","names":[],"sources":["r/b.js"],"sourcesContent":["y"],"version":3}
rewrite|{"sources":["a.js"],"mappings":"AADA"}|0 {"mappings":"AA+/////HA","names":[],"sources":["a.js"],"version":3}
rewrite|{"mappings":"D,C","rangeMappings":"B"}|0 {"mappings":"A,+/////H","names":[],"rangeMappings":"C","sources":[],"version":3}
rewrite|{"sections":[]}|1 encountered incompatible sourcemap format
rewrite|HERMES|0 {"mappings":"AAAA","names":[],"sources":["b.js"],"version":3,"x_facebook_sources":[[{"mappings":"AAA","names":["f"]}]]}
rewrite|{"sources":["a.js","b.js"],"mappings":"ACAA","x_facebook_sources":[]}|0 {"mappings":"AAAA","names":[],"sources":["b.js"],"version":3,"x_facebook_sources":[null]}
flatten|TWO|0 {"mappings":"AAAA;;;;;;;;;;ICAA","names":[],"sources":["a.js","b.js"],"version":3}
flatten|{"sections":[]}|0 {"mappings":"","names":[],"sources":[],"version":3}
flatten|{"sections":[{"offset":{"line":0,"column":0},"url":"u"}]}|1 cannot flatten the indexed sourcemap: Section has an unresolved sourcemap: u
flatten|{"sections":[{"offset":{"line":0,"column":0}}]}|1 cannot flatten the indexed sourcemap: Section has an unresolved sourcemap: <unknown url>
flatten|{"sections":[{"offset":{"line":4294967295,"column":0},"map":{"sources":["a.js"],"mappings":";AAAA"}}]}|1 cannot flatten the indexed sourcemap: a position passes 4294967295
flatten|{"sections":[{"offset":{"line":1,"column":2},"map":{"sources":["b.js"],"mappings":"AAAA","x_facebook_sources":[[{"names":["f"],"mappings":"AAA"}]]}}]}|0 {"mappings":";EAAA","names":[],"sources":["b.js"],"version":3}
flatten|MAP|1 encountered incompatible sourcemap format
flatten|HERMES|1 encountered incompatible sourcemap format
shift 2|LINK|0 {"sections":[{"map":null,"offset":{"column":4,"line":3},"url":"u"}],"sources":null,"version":3}
shift 4294967295|LINK|1 encountered incompatible sourcemap format
shift 2|{"sections":[],"x_facebook_offsets":[5,null],"x_metro_module_paths":["a.js"]}|0 {"sections":[],"sources":null,"version":3,"x_facebook_offsets":[5,null],"x_metro_module_paths":["a.js"]}
shift 0|MAP|1 encountered incompatible sourcemap format
shift 0|HERMES|1 encountered incompatible sourcemap format"#;

// An index map of two maps.
pub const TWO: &str =
    r#"{"version":3,"sections":[{"offset":{"line":0,"column":0},"map":{"version":3,"sources":["a.js"],"names":[],"mappings":"AAAA"}},{"offset":{"line":10,"column":4},"map":{"version":3,"sources":["b.js"],"names":[],"mappings":"AAAA"}}]}"#;

// A Hermes map of two sources; tokens use only the second.
const HERMES: &str =
    r#"{"sources":["a.js","b.js"],"mappings":"ACAA","x_facebook_sources":[null,[{"names":["f"],"mappings":"AAA"}]]}"#;

const LINK: &str = r#"{"sections":[{"offset":{"line":1,"column":4},"url":"u"}]}"#;

// The output of `rewrite` for `MAP`.
const REWRITTEN: &str =
    r#"{"mappings":"AAAA,GAAIA,GAAI,EACR,IAAIA,GAAK,EAAG,CACVC,MAAM","names":["x","alert"],"sources":["coolstuff.js"],"version":3}
"#;

// The output of `tokens` for `MAP`.
const LINES: &str = "0:0 coolstuff.js:0:0
0:3 coolstuff.js:0:4 name=x
0:6 coolstuff.js:0:8
0:8 coolstuff.js:1:0
0:12 coolstuff.js:1:4 name=x
0:15 coolstuff.js:1:9
0:17 coolstuff.js:1:12
0:18 coolstuff.js:2:2 name=alert
0:24 coolstuff.js:2:8
";

const MISUSES: &str = "lookup 1 x

lookup
lookup 0
lookup 0 0 0
lookup +0 0
lookup 0 4294967296
lookup 4294967296 0
lookup 0 18446744073709551616
lookup --from-1 0 5
lookup --from-1 5 0
lookup --from-1 1 4294967297
lookup --from-1 4294967297 1
lookup --from-1 1 18446744073709551617
lookup --from-1 1
lookup --from-1
lookup --from-1 1 6 6
lookup --from-1 +1 6
lookup --from-1 1 x
lookup 1 6 --from-1
lookup 1 --from-1 6
lookup --from-1 --from-1 1 6
--from-1 lookup 1 6
--from-1
lookup --from-0 1 6
lookup --from1 1 6
lookup --From-1 1 6
Lookup --from-1 1 6
Lookup 0 0
tokens 0
tokens --from-1
Rewrite
flatten 0
shift
shift +1
shift 4294967296
shift 1 1
shift --from-1 1
compose
compose a.map b.map
compose --from-1 a.map
Compose a.map
trace
trace a.txt b.txt
trace --from-1
trace --from-1 --from-1
trace a.txt --from-1
trace --from-1 a.txt b.txt
trace --from-0 a.txt
--from-1 trace a.txt
Trace a.txt
compile --with-contents
compile --without-contents --without-contents
--without-contents compile
Compile
check --lines
check --strict --json
check --json --json
check --json --strict --strict
check --generated
check --generated a.js --json
check --strict --json --generated a.js
check --json --generated
check --sources
check --sources src --generated a.js
check --generated --sources src
check --sources src --json
check --generated a.js --sources src --strict
--json check
Check";

pub fn words_of(alloc: Global, line: &str) -> Result<Vec<String>, AllocError> {
    let mut words = Vec::new(alloc);
    for word in line.split_whitespace() {
        words.push(String::from_str(alloc, word)?)?;
    }
    Ok(words)
}

/// Whether a run prints this text, ends with this status and leaves the last `left` bytes of the
/// input unread.
pub fn is_run(
    rt: &HostRuntime,
    words: &[String],
    input: &str,
    status: u8,
    text: &str,
    left: usize,
) -> Result<bool, Fail> {
    let mut rest = input.as_bytes();
    let mut output = Vec::new(rt.alloc());
    let ended = run(rt, rt.alloc(), words, &mut rest, &mut output)?;
    unless_out(ended, output.as_slice())?;
    Ok((ended, rest.len()) == (status, left) && output.as_slice() == text.as_bytes())
}

// Whether `reply_to` returns this status and text.
fn is_reply(
    rt: &HostRuntime,
    words: &[String],
    input: &str,
    status: u8,
    text: &str,
) -> Result<bool, Fail> {
    let bytes = Vec::from_slice(rt.alloc(), input.as_bytes())?;
    let reply = reply_to(rt, rt.alloc(), words, bytes, Ok(Vec::new(rt.alloc())))?;
    Ok(reply.status == status && reply.output.as_slice() == text.as_bytes())
}

// Whether `reply_to` returns this status and text, and `run` returns this status and prints this
// text. Status 2 means that the words are no command. For status 2, `run` must leave the whole
// input unread. For any other status, `run` must read the whole input. The only error is out of
// memory.
fn is_answered(
    rt: &HostRuntime,
    line: &str,
    input: &str,
    status: u8,
    text: &str,
) -> Result<bool, Fail> {
    let words = words_of(rt.alloc(), line)?;
    let left = if status == 2 { input.len() } else { 0 };
    Ok(
        is_reply(rt, words.as_slice(), input, status, text)?
            && is_run(rt, words.as_slice(), input, status, text, left)?,
    )
}

/// The input of a row of `RUNS`.
pub fn named_input(input: &str) -> &str {
    match input {
        "MAP" => MAP,
        "TWO" => TWO,
        "LINK" => LINK,
        "HERMES" => HERMES,
        text => text,
    }
}

// Checks a row of `RUNS`.
fn is_met(rt: &HostRuntime, row: &str) -> Result<bool, Fail> {
    let (line, rest) = row.split_once('|').ok_or("a short row")?;
    let (input, want) = rest.split_once('|').ok_or("a short row")?;
    let (status, text) = want.split_once(' ').ok_or("a short row")?;
    let input = named_input(input);
    let text = format!(in rt.alloc(); "{text}\n")?;
    is_answered(rt, line, input, status.parse()?, text.as_str())
}

#[test]
fn runs_print_answers_and_refusals(rt: HostRuntime) -> Result<(), Fail> {
    for row in RUNS.lines() {
        assert!(rt; is_met(&rt, row)?, "{row}");
    }
    Ok(())
}

#[test]
fn other_words_print_the_usage(rt: HostRuntime) -> Result<(), Fail> {
    for line in MISUSES.lines() {
        assert!(rt; is_answered(&rt, line, MAP, 2, USAGE)?, "{line}");
    }
    Ok(())
}

#[test]
fn junk_headers_are_recognised(rt: HostRuntime) -> Result<(), Fail> {
    assert!(rt; is_answered(&rt, "lookup 0 0", ")]}'\n{}", 0, "none\n")?);
    assert!(rt; is_answered(&rt, "tokens", ")]}'\n{}", 0, "")?);
    assert!(rt; is_answered(&rt, "tokens", ")]}'\r{}", 1, "invalid data\n")?);
    assert!(rt; is_answered(&rt, "tokens", ")]}'", 1, "bad json: the text is not JSON\n")?);
    Ok(())
}

// Whether words parse to this command.
pub fn ask_for(alloc: Global, line: &str, command: Option<Command>) -> Result<bool, Fail> {
    let words = words_of(alloc, line)?;
    Ok(parse_words(alloc, words.as_slice())? == command)
}

// Whether `apply` returns `want` for `MAP`. False for `Compose` and `Trace`, which name a file.
fn command_prints(rt: &HostRuntime, command: &Command, want: &str) -> Result<bool, Fail> {
    match command {
        Command::Compose(_) | Command::Trace(_, _) => Ok(false),
        command => {
            let map = decode_slice(rt.alloc(), MAP.as_bytes())?;
            let text = apply(rt, rt.alloc(), command, map, None)?;
            Ok(text.as_str() == want)
        }
    }
}

#[test]
fn words_ask_for_commands(rt: HostRuntime) -> Result<(), Fail> {
    let alloc = rt.alloc();
    let command = Command::Lookup(Counting::From0, 0, 18);
    assert!(rt; ask_for(alloc, "lookup 0 18", Some(command))?);
    let command = Command::Lookup(Counting::From1, 0, 18);
    assert!(rt; ask_for(alloc, "lookup --from-1 1 19", Some(command))?);
    assert!(rt; ask_for(alloc, "tokens", Some(Command::Tokens))?);
    assert!(rt; ask_for(alloc, "rewrite", Some(Command::Rewrite))?);
    assert!(rt; ask_for(alloc, "flatten", Some(Command::Flatten))?);
    assert!(rt; ask_for(alloc, "shift 7", Some(Command::Shift(7)))?);
    let path = String::from_str(alloc, "a.map")?;
    assert!(rt; ask_for(alloc, "compose a.map", Some(Command::Compose(path)))?);
    let command = Command::Trace(Counting::From0, String::from_str(alloc, "a.txt")?);
    assert!(rt; ask_for(alloc, "trace a.txt", Some(command))?);
    let command = Command::Trace(Counting::From1, String::from_str(alloc, "a.txt")?);
    assert!(rt; ask_for(alloc, "trace --from-1 a.txt", Some(command))?);
    let command = Command::Compile(WithContents::Yes);
    assert!(rt; ask_for(alloc, "compile", Some(command))?);
    let command = Command::Compile(WithContents::No);
    assert!(rt; ask_for(alloc, "compile --without-contents", Some(command))?);
    assert!(rt; ask_for(alloc, "tokens tokens", None)?);
    Ok(())
}

#[test]
fn commands_are_applied(rt: HostRuntime) -> Result<(), Fail> {
    assert!(rt;
        command_prints(
            &rt,
            &Command::Lookup(Counting::From0, 0, 18),
            "coolstuff.js:2:2 name=alert\n"
        )?
    );
    assert!(rt;
        command_prints(
            &rt,
            &Command::Lookup(Counting::From1, 0, 18),
            "coolstuff.js:3:3 name=alert\n"
        )?
    );
    assert!(rt; command_prints(&rt, &Command::Tokens, LINES)?);
    assert!(rt; command_prints(&rt, &Command::Rewrite, REWRITTEN)?);
    Ok(())
}
