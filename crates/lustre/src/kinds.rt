// The kinds of records, as document 01 numbers them. A caller lends a record's kind as a byte, so a kind is its byte, named here.
pub const PROJECT: u8 = 1;

pub const PACKAGE: u8 = 2;

pub const LIST: u8 = 3;

pub const ALIAS: u8 = 4;

pub const RECORD: u8 = 5;

pub const ENUM: u8 = 6;

pub const PORT: u8 = 7;

pub const NAME: u8 = 8;

pub const CONSTANT: u8 = 9;

pub const FUNCTION: u8 = 10;

pub const OPERATOR: u8 = 11;

pub const IMPORTED: u8 = 12;

pub const EQUATION: u8 = 13;

// The basic types: Bool, the signed integers from Int8 to Int64, the unsigned from Uint8 to Uint64, the floats, Char.
pub const BOOL: u8 = 20;

pub const INT8: u8 = 21;

pub const INT16: u8 = 22;

pub const INT32: u8 = 23;

pub const INT64: u8 = 24;

pub const UINT8: u8 = 25;

pub const UINT16: u8 = 26;

pub const UINT32: u8 = 27;

pub const UINT64: u8 = 28;

pub const FLOAT32: u8 = 29;

pub const FLOAT64: u8 = 30;

pub const CHAR: u8 = 31;

pub const ARRAY_TYPE: u8 = 32;

pub const NAMED: u8 = 33;

// Literals, one for each sort of value.
pub const BOOL_LITERAL: u8 = 40;

pub const INT_LITERAL: u8 = 41;

pub const FLOAT_LITERAL: u8 = 42;

pub const CHAR_LITERAL: u8 = 43;

pub const VARIABLE: u8 = 44;

pub const NOT: u8 = 45;

pub const MINUS: u8 = 46;

// The binary operators, in the order of the Rust's `BinOp`: the first of all, and the last of each class.
pub const AND: u8 = 47;

pub const IMPLIES: u8 = 50;

pub const NOT_EQUAL: u8 = 52;

pub const GREATER_EQUAL: u8 = 56;

pub const MODULO: u8 = 61;

pub const SHIFT_RIGHT: u8 = 66;

pub const IF: u8 = 67;

pub const PRE: u8 = 68;

pub const ARROW: u8 = 69;

pub const CALL: u8 = 70;

pub const FIELD: u8 = 71;

pub const INDEX: u8 = 72;

pub const TUPLE: u8 = 73;

pub const ARRAY: u8 = 74;

pub const STRUCT: u8 = 75;

pub const CAST: u8 = 76;

pub const WHEN_TRUE: u8 = 77;

pub const WHEN_FALSE: u8 = 78;

pub const MERGE: u8 = 79;

pub const MAP: u8 = 80;

pub const MAP_FROM: u8 = 81;

pub const FOLD: u8 = 82;

pub const FOLD_FROM: u8 = 83;

pub const FIELD_VALUE: u8 = 84;
