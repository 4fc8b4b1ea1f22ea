// The codes of documents 01 and 02, as numbers: the digits behind the letter. W0051 alone is a warning. The clock codes E0132 to E0135 are left out.
// Kept: no enum, since a line's fields are C's numbers; a code is put into a line and the definitions number it, so an enum would say no more.
// A node has the name of an earlier one.
pub const E0001: u64 = 1;
// An imported node has equations.
pub const E0002: u64 = 2;
// A constant has the name of an earlier one.
pub const E0003: u64 = 3;
// A constant's value has a temporal operator.
pub const E0004: u64 = 4;
// A constant's value is not of its type.
pub const E0005: u64 = 5;
// A type has the name of an earlier one.
pub const E0006: u64 = 6;
// An enum variant has the name of an earlier one.
pub const E0007: u64 = 7;
// An alias does not resolve.
pub const E0008: u64 = 8;
// An input has the name of an earlier one.
pub const E0010: u64 = 10;
// An output has the name of an earlier port.
pub const E0011: u64 = 11;
// A local has the name of an earlier port or local.
pub const E0012: u64 = 12;
// An equation defines an unknown name.
pub const E0020: u64 = 20;
// A name is defined again.
pub const E0021: u64 = 21;
// An equation defines an input.
pub const E0022: u64 = 22;
// A function has a temporal operator.
pub const E0030: u64 = 30;
// A right-hand side is not of its name's type.
pub const E0040: u64 = 40;
// A right-hand side for other than one name is no tuple.
pub const E0041: u64 = 41;
// A tuple has another number of members than there are names, request 2.8.
pub const E0042: u64 = 42;
// A name is not of the type of the call's output at its position, request 2.8.
pub const E0043: u64 = 43;
// An output is not defined.
pub const E0050: u64 = 50;
// A name of a loop.
pub const E0060: u64 = 60;
// A `pre` has no initial value.
pub const E0070: u64 = 70;
// An unknown identifier.
pub const E0080: u64 = 80;
// `not` of no bool.
pub const E0081: u64 = 81;
// Minus of no number.
pub const E0082: u64 = 82;
// A logical operator on other than bools.
pub const E0083: u64 = 83;
// Equality of two types.
pub const E0084: u64 = 84;
// Ordering of other than one numeric type.
pub const E0085: u64 = 85;
// Arithmetic on other than one numeric type.
pub const E0086: u64 = 86;
// A bitwise operator on other than one integer type.
pub const E0087: u64 = 87;
// A condition that is no bool.
pub const E0090: u64 = 90;
// Branches of two types.
pub const E0091: u64 = 91;
// Sides of an arrow of two types.
pub const E0092: u64 = 92;
// A cast of no number.
pub const E0093: u64 = 93;
// A cast to no numeric type.
pub const E0094: u64 = 94;
// An integer literal that fits neither its hint nor Int32.
pub const E0095: u64 = 95;
// A call of an unknown node.
pub const E0100: u64 = 100;
// A function calls an operator.
pub const E0101: u64 = 101;
// A call with another number of arguments.
pub const E0102: u64 = 102;
// An argument is not of its input's type.
pub const E0103: u64 = 103;
// An index of no array.
pub const E0110: u64 = 110;
// An index that is no integer.
pub const E0111: u64 = 111;
// A record has no such field.
pub const E0120: u64 = 120;
// A field of a named type that is no record.
pub const E0121: u64 = 121;
// A field of a basic or array type.
pub const E0122: u64 = 122;
// An empty array without a hint.
pub const E0123: u64 = 123;
// Items of two types.
pub const E0124: u64 = 124;
// A struct value of no record.
pub const E0125: u64 = 125;
// A struct value gives a field that the record lacks.
pub const E0126: u64 = 126;
// A field's value is not of its type.
pub const E0127: u64 = 127;
// A struct value lacks a field.
pub const E0128: u64 = 128;
// A clock that is no bool.
pub const E0130: u64 = 130;
// Branches of a merge of two types.
pub const E0131: u64 = 131;
// An iterator of an unknown function.
pub const E0140: u64 = 140;
// An iterator of no function.
pub const E0141: u64 = 141;
// An iterator of a function with other than one output.
pub const E0142: u64 = 142;
// An operand of an iterator is no array.
pub const E0143: u64 = 143;
// An iterator's arrays have several lengths.
pub const E0144: u64 = 144;
// An iterator's types do not fit its function.
pub const E0145: u64 = 145;
// An iterator inside another expression.
pub const E0146: u64 = 146;
// A probe of an unknown name.
pub const E0150: u64 = 150;
// A local is not defined.
pub const W0051: u64 = 51;
