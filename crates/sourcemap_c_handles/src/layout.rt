//! The structs of the C header, and conversions from and to the types of the library.
ghost use Rattle.std.specs.Prelude.{◌≡◌, None, option_map};
ghost use Rattle.sourcemap_map_regular.specs.Token.{token_value};
ghost use Rattle.sourcemap_c_handles.specs.Layout.{found_in, found_token, map_token, raw_token};

use sourcemap_headers::debug_id::DebugId;
use sourcemap_map_regular::token::Token;
use sourcemap_tokens::tokens::RawToken;
use uuid::Uuid;

/// The struct `sm_position` of the C header. Lines and columns count from 0, columns in UTF-16
/// units.
#[repr(C)]
#[derive(Clone, Copy)]
pub struct Position {
    pub line: u32,
    pub column: u32,
}

/// The struct `sm_token` of the C header.
#[repr(C)]
#[derive(Clone, Copy)]
pub struct MapToken {
    pub line: u32,
    pub column: u32,
    pub original_line: u32,
    pub original_column: u32,
    pub source: u32,
    pub name: u32,
    pub is_range: bool,
}

/// The struct `sm_found` of the C header.
#[repr(C)]
#[derive(Clone, Copy)]
pub struct Found {
    pub token: MapToken,
    pub found: bool,
}

/// The struct `sm_counts` of the C header.
#[repr(C)]
#[derive(Clone, Copy)]
pub struct Counts {
    pub tokens: u32,
    pub sources: u32,
    pub names: u32,
    pub ignored: u32,
    pub sections: u32,
}

/// The struct `sm_debug_id` of the C header.
#[repr(C)]
#[derive(Clone, Copy)]
pub struct IdBytes {
    pub bytes: [u8; 16],
}

/// The struct `sm_section_start` of the C header.
#[repr(C)]
#[derive(Clone, Copy)]
pub struct SectionStart {
    pub line: u32,
    pub column: u32,
    pub has_map: bool,
    pub has_url: bool,
}

impl MapToken {
    /// The `MapToken` with the fields of `raw`.
    pub fn of_raw(raw: RawToken) -> MapToken
        ensures { result ≡ map_token raw }
    {
        MapToken {
            line: raw.dst_line,
            column: raw.dst_col,
            original_line: raw.src_line,
            original_column: raw.src_col,
            source: raw.src_id,
            name: raw.name_id,
            is_range: raw.is_range,
        }
    }

    /// Returns the `RawToken` that has the fields of this struct.
    pub fn to_raw(self) -> RawToken
        ensures { result ≡ raw_token self }
    {
        RawToken {
            dst_line: self.line,
            dst_col: self.column,
            src_line: self.original_line,
            src_col: self.original_column,
            src_id: self.source,
            name_id: self.name,
            is_range: self.is_range,
        }
    }

    /// The `MapToken` of a token that a lookup found. `original_column` is `token.get_src_col()`,
    /// and the other fields are those of `token.get_raw_token()`. If the token is a range token on
    /// the line of the looked-up position, `get_src_col` adds the columns from the token to this
    /// position. A sum above 4294967295 becomes 4294967295.
    pub fn of_found(token: &Token<'_>) -> MapToken
        ensures { result ≡ found_token (token_value token.now) }
    {
        MapToken {
            original_line: token.get_src_line(),
            original_column: token.get_src_col(),
            ..MapToken::of_raw(token.get_raw_token())
        }
    }
}

impl Found {
    /// The result of a lookup that found no token.
    pub fn none() -> Found
        ensures { result ≡ found_in None }
    {
        let token = MapToken {
            line: 0,
            column: 0,
            original_line: 0,
            original_column: 0,
            source: 0,
            name: 0,
            is_range: false,
        };
        Found {
            token,
            found: false,
        }
    }

    /// The result of a lookup that found this token. For `None`, the result of a lookup that found
    /// no token.
    pub fn of(token: Option<&Token<'_>>) -> Found
        ensures { result ≡ found_in (option_map (λ t. token_value t.now) token.entry) }
    {
        match token {
            Some(token) => Found {
                token: MapToken::of_found(token),
                found: true,
            },
            None => Found::none(),
        }
    }
}

impl IdBytes {
    /// The bytes of a debug id.
    pub fn of_id(id: DebugId) -> IdBytes
        ensures { result.bytes ≡ id }
    {
        IdBytes {
            bytes: id.uuid().into_bytes(),
        }
    }

    /// The debug id of these bytes.
    pub fn to_id(self) -> DebugId
        ensures { result ≡ self.bytes }
    {
        DebugId::from_uuid(Uuid::from_bytes(self.bytes))
    }
}
