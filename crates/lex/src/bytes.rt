// Bytes by their characters, as `lex::byte` gives them.

pub const TAB: u32 = b'\t' as u32;

pub const LF: u32 = b'\n' as u32;

pub const CR: u32 = b'\r' as u32;

pub const SPACE: u32 = b' ' as u32;

pub const BANG: u32 = b'!' as u32;

pub const QUOTE: u32 = b'"' as u32;

pub const AMPERSAND: u32 = b'&' as u32;

pub const APOSTROPHE: u32 = b'\'' as u32;

pub const DOLLAR: u32 = b'$' as u32;

pub const OPEN_PAREN: u32 = b'(' as u32;

pub const CLOSE_PAREN: u32 = b')' as u32;

pub const STAR: u32 = b'*' as u32;

pub const PLUS: u32 = b'+' as u32;

pub const COMMA: u32 = b',' as u32;

pub const DASH: u32 = b'-' as u32;

pub const DOT: u32 = b'.' as u32;

pub const SLASH: u32 = b'/' as u32;

pub const ZERO: u32 = b'0' as u32;

pub const NINE: u32 = b'9' as u32;

pub const COLON: u32 = b':' as u32;

pub const LESS: u32 = b'<' as u32;

pub const EQUALS: u32 = b'=' as u32;

pub const GREATER: u32 = b'>' as u32;

pub const QUESTION: u32 = b'?' as u32;

pub const UPPER_A: u32 = b'A' as u32;

pub const UPPER_Z: u32 = b'Z' as u32;

pub const OPEN_BRACKET: u32 = b'[' as u32;

pub const BACKSLASH: u32 = b'\\' as u32;

pub const CLOSE_BRACKET: u32 = b']' as u32;

pub const UNDERSCORE: u32 = b'_' as u32;

pub const LOWER_A: u32 = b'a' as u32;

pub const LOWER_Z: u32 = b'z' as u32;

pub const OPEN_BRACE: u32 = b'{' as u32;

pub const BAR: u32 = b'|' as u32;

pub const CLOSE_BRACE: u32 = b'}' as u32;

// What `lex::byte` gives at the end of the input.
pub const END: u32 = 256;
