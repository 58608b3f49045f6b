//! A run of the program: from words and input to a reply, which is a text and an exit status.
ghost use Rattle.std.specs.Prelude.{◌≡◌, false, ℕ, List, Result, IfErr, IfOk, MatchResult, map, string_bytes};
ghost use Rattle.std.specs.Io.KnownBytes.{Appends};
ghost use Rattle.sourcemap.specs.Answer.{IsAnswer};
ghost use Rattle.sourcemap.specs.AnyMap.{map_tree};
ghost use Rattle.sourcemap.specs.Decoder.{Reading};
ghost use Rattle.sourcemap.specs.Trees.{IsInOrder};
ghost use Rattle.sourcemap.specs.declared.errors.Error.{Error};
ghost use Rattle.sourcemap.specs.declared.errors.Error.TheVariants.{OutOfMemory};
ghost use Rattle.sourcemap_compiled.specs.Soundness.{IsSound};
ghost use Rattle.sourcemap_compiled.specs.Stored.{bytes_of};
ghost use Rattle.sourcemap_cache.specs.Compile.{bytes_in};
ghost use Rattle.sourcemap_trace.specs.Asked.{IsExact, asked_meaning};
ghost use Rattle.sourcemap_trace.specs.Positions.{first_of};
ghost use Rattle.sourcemap_cli.specs.Command.{IsQuestion};
ghost use Rattle.sourcemap_cli.specs.Lines.{IsLineOf};
ghost use Rattle.sourcemap_cli.specs.declared.command.Command.TheVariants.{Compile, Compose};
ghost use Rattle.sourcemap_cli.specs.declared.program.Reply.{Reply};
ghost use Rattle.sourcemap_cli.specs.Program.{AreApplied, AskForNone, Ending, Ends, IsCompileReply, IsCutShort, IsPrinted, IsRefusedReply, IsReply, IsReplyOf, IsReplyTo, IsWriteError, PrintsRefusal, RepliesOn, ReturnsElse, ReturnsOnBytes, ReturnsWithFile, Runs, WithFile, file_read, is_applied, misused, traced};

use crate::checks::check_reply;
use crate::command::{Command, parse_words};
use crate::compiled::{compiled_line, is_applied, sound_map};
use crate::files::{decode_file, read_command_file};
use crate::output::{adjusted_json, apply};
use sourcemap::decoder::decode_vec;
use sourcemap::{DecodedMap, Error, Result};
use sourcemap_cache::compiling::compile;
use sourcemap_cache::errors::CompileError;
use sourcemap_cache::parts::WithContents;
use sourcemap_compiled::map::CompiledMap;
use sourcemap_records::bytes::read_all;
use sourcemap_trace::{AskedMap, Counting, trace_text_from};
use std::alloc::Global;
use std::fmt::Display;
use std::io::{Read, Write};
use std::result;
use std::rt::Files;

const USAGE: &str =
    "usage: lookup [--from-1] LINE COL | tokens | rewrite | flatten | compose FILE | shift ROWS | trace [--from-1] FILE | compile [--without-contents] | check [--json] [--strict] [--generated FILE] [--name NAME] [--sources DIR]\n";

const NO_MEMORY: &str = "out of memory\n";

/// The output and the exit status of a run.
#[derive(Debug, Drop)]
pub struct Reply {
    /// The whole output: a compiled map, or a text that is empty or ends with a newline.
    pub output: Vec<u8>,
    /// 0 after success, 1 after an error, 2 for words that are no command.
    pub status: u8,
}

fn compose(alloc: Global, map: DecodedMap, file: Result<Vec<u8>>) -> Result<String>
    ensures { (path : _) → IsAnswer string_bytes
        (ReturnsWithFile (file_read file) (Compose path) (map_tree map)) result }
{
    let adjustment = decode_file(alloc, file)?;
    adjusted_json(alloc, map, adjustment)
}

fn trace(
    alloc: Global,
    counting: Counting,
    map: AskedMap<'_>,
    file: Result<Vec<u8>>,
) -> Result<String>
    ensures { IsExact map.entry → IsAnswer string_bytes
        (λ a. a ≡ traced (first_of counting) (asked_meaning map.entry) (file_read file)) result }
{
    // prover: error passed on by `match`
    match file {
        Ok(positions) => trace_text_from(alloc, map, positions.as_slice(), counting),
        Err(error) => Err(error),
    }
}

fn execute<F: Files>(
    rt: &F,
    alloc: Global,
    command: &Command,
    map: DecodedMap,
    file: Result<Vec<u8>>,
) -> Result<String>
    ensures { IsInOrder (map_tree map) → IsAnswer string_bytes
        (ReturnsWithFile (file_read file) command.now (map_tree map)) result }
{
    match command {
        Command::Compose(_) => compose(alloc, map, file),
        Command::Trace(counting, _) => trace(alloc, *counting, AskedMap::Decoded(&map), file),
        command => apply(rt, alloc, command, map, None),
    }
}

fn execute_on_bytes<F: Files>(
    rt: &F,
    alloc: Global,
    command: &Command,
    bytes: Vec<u8>,
    file: Result<Vec<u8>>,
) -> Result<String>
    ensures { IsAnswer string_bytes
        (ReturnsOnBytes command.now bytes.items (file_read file)) result }
{
    let map = decode_vec(alloc, bytes)?;
    execute(rt, alloc, command, map, file)
}

// The map is decoded before FILE is opened. If decoding fails, FILE is not opened, and the result
// is the decoding error.
fn execute_and_read_file<F: Files>(
    rt: &F,
    alloc: Global,
    command: &Command,
    bytes: Vec<u8>,
) -> Result<String>
    ensures { WithFile (λ file. IsAnswer string_bytes
        (ReturnsOnBytes command.now bytes.items file) result) }
{
    let map = decode_vec(alloc, bytes)?;
    let file = read_command_file(rt, alloc, command);
    execute(rt, alloc, command, map, file)
}

fn error_line<E: Display>(alloc: Global, error: &E) -> Result<String>
    ensures { MatchResult result
        (λ text. IsLineOf (E.output error.now) (string_bytes text))
        (λ e. e ≡ OutOfMemory) }
{
    let mut text = error.to_string(alloc)?;
    text.push('\n')?;
    Ok(text)
}

pub(crate) fn into_reply(alloc: Global, answer: Result<String>) -> Result<Reply>
    ensures { MatchResult result (IsReplyOf answer) (λ e. e ≡ OutOfMemory) }
{
    match answer {
        Ok(text) => Ok(text_reply(text, 0)),
        Err(Error::OutOfMemory) => Err(Error::OutOfMemory),
        Err(error) => {
            let text = error_line(alloc, &error)?;
            Ok(text_reply(text, 1))
        }
    }
}

pub(crate) fn text_reply(text: String, status: u8) -> Reply
    ensures output { result.output.items ≡ string_bytes text }
    ensures status { result.status ≡ status }
{
    Reply {
        output: text.into_bytes(),
        status,
    }
}

fn usage_reply(alloc: Global) -> Result<Reply>
    ensures { MatchResult result (IsReply misused) (λ e. e ≡ OutOfMemory) }
{
    let text = String::from_str(alloc, USAGE)?;
    Ok(text_reply(text, 2))
}

fn refused_reply<E: Display>(alloc: Global, error: &E) -> Result<Reply>
    ensures { MatchResult result (IsRefusedReply (E.output error.now)) (λ e. e ≡ OutOfMemory) }
{
    let text = error_line(alloc, error)?;
    Ok(text_reply(text, 1))
}

fn reply_to_compilation(
    alloc: Global,
    compiled: result::Result<Vec<u8>, CompileError>,
) -> Result<Reply>
    ensures { MatchResult result (IsCompileReply (bytes_in compiled)) (λ e. e ≡ OutOfMemory) }
{
    match compiled {
        Ok(output) => Ok(Reply { output, status: 0 }),
        Err(CompileError::TooLarge) => refused_reply(alloc, &CompileError::TooLarge),
        Err(CompileError::Map(error)) => into_reply(alloc, Err(error)),
    }
}

fn compile_reply(alloc: Global, bytes: Vec<u8>, contents: WithContents) -> Result<Reply>
    ensures { (file : _) → MatchResult result
        (RepliesOn (Compile contents) bytes.items file)
        (λ e. e ≡ OutOfMemory) }
{
    // prover: error passed on by `match`
    match decode_vec(alloc, bytes) {
        Ok(map) => reply_to_compilation(alloc, compile(alloc, &map, contents)),
        Err(error) => into_reply(alloc, Err(error)),
    }
}

// The answer of a compiled map.
fn ask(
    alloc: Global,
    command: &Command,
    map: CompiledMap<'_>,
    file: Result<Vec<u8>>,
) -> Result<String>
    requires question { IsQuestion command.now }
    requires sound { IsSound (bytes_of map) }
    ensures { IsAnswer string_bytes
        (ReturnsElse command.now (bytes_of map.entry) (file_read file)) result }
{
    match command {
        Command::Lookup(counting, line, col) => compiled_line(alloc, map, *counting, *line, *col),
        Command::Trace(counting, _) => trace(alloc, *counting, AskedMap::Compiled(map), file),
        _ => Err(Error::IncompatibleSourceMap),
    }
}

fn compiled_reply(
    alloc: Global,
    command: &Command,
    bytes: &[u8],
    file: Result<Vec<u8>>,
) -> Result<Reply>
    requires question { IsQuestion command.now }
    requires compiled { is_applied command.now bytes.now ≡ false }
    ensures { MatchResult result
        (RepliesOn command.now bytes.now (file_read file))
        (λ e. e ≡ OutOfMemory) }
{
    match sound_map(bytes) {
        Ok(map) => {
            let answer = ask(alloc, command, map, file);
            into_reply(alloc, answer)
        }
        Err(error) => refused_reply(alloc, &error),
    }
}

fn reply_without_map<F: Files>(
    rt: &F,
    alloc: Global,
    command: &Command,
    bytes: Vec<u8>,
    file: Result<Vec<u8>>,
) -> Result<Reply>
    requires { is_applied command.now bytes.items ≡ false }
    ensures { MatchResult result
        (RepliesOn command.now bytes.items (file_read file))
        (λ e. e ≡ OutOfMemory) }
{
    match command {
        Command::Compile(contents) => compile_reply(alloc, bytes, *contents),
        Command::Check(checking) => check_reply(rt, alloc, checking, bytes.as_slice(), file),
        command => compiled_reply(alloc, command, bytes.as_slice(), file),
    }
}

/// Returns the reply of a run. `words` are the arguments, and `bytes` is the map as JSON text; for
/// `Lookup` and `Trace` it may be a compiled map, which begins with the byte 8F and `SMC`. `file`
/// is the bytes of the file that `Compose`, `Trace` or `Check` names, or the error of reading that
/// file. Other commands ignore `file`. `Check` reads the files of sources by itself.
///
/// - Status 0: the output of the command, as returned by `apply`, for `Trace` by `trace_text_from`,
///   for `Compile` by `sourcemap_cache::compile`, and for `Check` by `check_text` of
///   `sourcemap_check_print`, if the check passes: if the map is valid, and for `Strict` nothing
///   looks wrong.
/// - Status 1: the text of the first error and a newline. Errors are checked in this order:
///   `decode_slice` returns an error for `bytes`; the file could not be read; the file of `Compose`
///   does not decode; the command returns an error. An `Io` error says that a junk header is
///   invalid, or that the file could not be read. std does not specify the text of an `Io` error.
///   A compiled map is refused with the error of `CompiledMap::parse` or of `verify`.
///   For `Check`, 1 also says that the check fails; the output is the report all the same. A
///   generated text that is not UTF-8 is an error.
/// - Status 2: the usage, for words that are no command.
///
/// The only error is `OutOfMemory`. No reply reports this error, even if `file` is
/// `Err(OutOfMemory)`.
pub fn reply_to<F: Files>(
    rt: &F,
    alloc: Global,
    words: &[String],
    bytes: Vec<u8>,
    file: Result<Vec<u8>>,
) -> Result<Reply>
    ensures answer { MatchResult result
        (IsReplyTo (map string_bytes words.now) bytes.items (file_read file))
        (λ e. e ≡ OutOfMemory) }
    // `answer`: the reply has the output and the status of some ending that `Ends` allows. `only`:
    // for each ending that `Ends` allows, the reply has the output and the status of this ending.
    // It is said of commands that are applied to the map that `bytes` decode to.
    ensures only { IfOk result (λ reply. (due : Ending)
        → AreApplied (map string_bytes words.now) bytes.items
        → Ends (map string_bytes words.now) bytes.items (file_read file) due
        → IsReply due reply) }
{
    match parse_words(alloc, words)? {
        Some(command) => reply_to_command(rt, alloc, &command, bytes, file),
        None => usage_reply(alloc),
    }
}

fn reply_to_command<F: Files>(
    rt: &F,
    alloc: Global,
    command: &Command,
    bytes: Vec<u8>,
    file: Result<Vec<u8>>,
) -> Result<Reply>
    ensures { MatchResult result
        (RepliesOn command.now bytes.items (file_read file))
        (λ e. e ≡ OutOfMemory) }
{
    if !is_applied(command, bytes.as_slice()) {
        return reply_without_map(rt, alloc, command, bytes, file);
    }
    let answer = execute_on_bytes(rt, alloc, command, bytes, file);
    into_reply(alloc, answer)
}

// A compiled map is verified after FILE was read, any other map is decoded before FILE is opened.
fn reply_and_read_file<F: Files>(
    rt: &F,
    alloc: Global,
    command: &Command,
    bytes: Vec<u8>,
) -> Result<Reply>
    ensures { WithFile (λ file. MatchResult result
        (RepliesOn command.now bytes.items file)
        (λ e. e ≡ OutOfMemory)) }
{
    if !is_applied(command, bytes.as_slice()) {
        let file = read_command_file(rt, alloc, command);
        return reply_without_map(rt, alloc, command, bytes, file);
    }
    let answer = execute_and_read_file(rt, alloc, command, bytes);
    into_reply(alloc, answer)
}

// Words that are no command leave the input unread.
fn reply_to_input<F: Files, R: Read>(
    rt: &F,
    alloc: Global,
    words: &[String],
    input: &mut R,
) -> Result<Reply>
    ensures answer { Reading (R.remaining input.old) (λ bytes. WithFile (λ file.
        MatchResult result
        (IsReplyTo (map string_bytes words.now) bytes file)
        (IsCutShort (map string_bytes words.now)))) }
    ensures unread { AskForNone (map string_bytes words.now) → input.new ≡ input.old }
{
    match parse_words(alloc, words)? {
        Some(command) => {
            let bytes = read_all(alloc, input)?;
            reply_and_read_file(rt, alloc, &command, bytes)
        }
        None => usage_reply(alloc),
    }
}

fn print<W: Write>(output: &mut W, bytes: &[u8]) -> Result<()>
    ensures { MatchResult result
        (λ _. Appends (W.contents output.old) (W.contents output.new) bytes.now)
        IsWriteError }
{
    output.write_all(bytes)?;
    output.flush()?;
    Ok(())
}

// Falls back to `NO_MEMORY` if the text of the error cannot be allocated.
fn print_error<W: Write>(alloc: Global, error: &Error, output: &mut W) -> Result<()>
    ensures { MatchResult result
        (λ _. PrintsRefusal error.now (W.contents output.old) (W.contents output.new))
        IsWriteError }
{
    match error_line(alloc, error) {
        Ok(text) => {
            print(output, text.as_bytes())?;
            Ok(())
        }
        Err(_) => {
            print(output, NO_MEMORY.as_bytes())?;
            Ok(())
        }
    }
}

fn print_reply<W: Write>(alloc: Global, reply: Result<Reply>, output: &mut W) -> Result<u8>
    ensures { MatchResult result
        (λ status. IsPrinted reply status (W.contents output.old) (W.contents output.new))
        IsWriteError }
{
    match reply {
        Ok(reply) => {
            print(output, reply.output.as_slice())?;
            Ok(reply.status)
        }
        Err(error) => {
            print_error(alloc, &error, output)?;
            Ok(1)
        }
    }
}

/// Runs the program. Prints the output of the reply that `reply_to` returns for the same words, map
/// and file. Returns the status of this reply.
///
/// The map is read from `input`, but only if the words are a command. The file of `Compose` or
/// `Trace` is opened after the input is decoded, or after a compiled map is read. If the input or the file cannot be read, or if
/// memory runs out, the text of the error and a newline are printed, and the status is 1. The whole
/// output is in memory before its first byte is written. The call returns only errors of the
/// writer.
pub fn run<F: Files, R: Read, W: Write>(
    rt: &F,
    alloc: Global,
    words: &[String],
    input: &mut R,
    output: &mut W,
) -> Result<u8>
    ensures answer { IfOk result (λ status. Runs (map string_bytes words.now)
        (R.remaining input.old) status (W.contents output.old) (W.contents output.new)) }
    ensures unread { AskForNone (map string_bytes words.now) → input.new ≡ input.old }
    ensures error { IfErr result IsWriteError }
{
    let reply = reply_to_input(rt, alloc, words, input);
    print_reply(alloc, reply, output)
}

/// Law: the same words, bytes and file have one reply, if the command is applied to the map that
/// the bytes decode to. The only exception is the text of a reply that reports an error of std,
/// because std does not specify this text. An error of std means that a junk header is invalid, or
/// that the file could not be opened or read. What `compile` prints is determined as
/// `equal_maps_compile_alike` of `sourcemap_cache` says.
pub fn replies_are_determined()
    ensures { (words : List (List ℕ)) (bytes : List ℕ) (read : Result (List ℕ) Error) (a b : Ending)
        → AreApplied words bytes → Ends words bytes read a → Ends words bytes read b
        → (reply : Reply) → IsReply a reply → IsReply b reply }
{}
