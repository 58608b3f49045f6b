//! Writes a regular map in pieces.
ghost use Rattle.std.specs.Prelude.{ℕ, List, IfErr, OnOk};
ghost use Rattle.std.specs.Io.KnownBytes.{Appends};
ghost use Rattle.sourcemap.specs.Answer.{UnlessMemory};
ghost use Rattle.sourcemap.specs.Encoder.{ReadsBack, Restores};
ghost use Rattle.sourcemap.specs.Reading.{BytesHaveResult, RegularDecodes};
ghost use Rattle.sourcemap.specs.Types.{IsWellFormed};
ghost use Rattle.sourcemap.specs.Written.{IsIo};

use sourcemap::encoder::encode_in_parts;
use sourcemap::laws::written_maps_read_back;
use sourcemap::{Result, SourceMap};
use std::alloc::Global;
use std::io::Write;

/// Writes a map to a file, or to any writer, in pieces. If the map is well-formed, the written
/// bytes decode to a map with the same meaning at every position. The decoded map may lack three
/// things: tokens equal to the token before them, name ids that name nothing, and contents that
/// belong to no source. All else is kept. The errors are `OutOfMemory`, and `Io` if a write fails
/// for another reason. After an error the file may hold a part of the text.
pub fn export<W: Write>(alloc: Global, map: &SourceMap, file: &mut W) -> Result<()>
    ensures written { OnOk result ((text : List ℕ)
        × Appends (W.contents file.old) (W.contents file.new) text
        × (IsWellFormed map.now
        → ReadsBack (BytesHaveResult RegularDecodes text) (Restores map.now))) }
    ensures error { IfErr result (λ e. UnlessMemory e (IsIo e)) }
{
    written_maps_read_back();
    encode_in_parts(alloc, map, file)?;
    Ok(())
}
