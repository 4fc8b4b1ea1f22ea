// The tables of kinds: the class of each kind's word, and what follows a record of each kind. They are lustre's grammar, by the kind.
#![tactic(auto, unfolding(crate::specs::Places::shape_of, crate::specs::Places::shape_in, lustre::specs::Grammar::entries, lustre::specs::Grammar::entry))]

ghost use Rattle.std.specs.Prelude.{◌≡◌};
ghost use Rattle.lustre.specs.Grammar.{one, a_declaration, a_type, an_expression};
ghost use Rattle.lustre.specs.Records.{word_class};
ghost use Rattle.records.specs.Places.{class_of, shape_of};
ghost use Rattle.records.specs.Tables.{words_of, IsShape};

use Class::{List, One};
use Shape::{Each, Parts};
use Sort::{Declaration, Equation, Expression, FieldValue, Name, Node, Package, Port, Type};
use lustre::kinds;

// What a kind's word is.
#[derive(Clone, Copy, PartialEq, Eq)]
pub enum WordClass {
    Nothing,
    Name,
    Count,
    Length,
    Truth,
    Anything,
    Byte,
}

// What a record may be the start of.
#[derive(Clone, Copy, PartialEq, Eq)]
pub enum Sort {
    Project,
    Package,
    Declaration,
    Constant,
    Node,
    Port,
    Name,
    Equation,
    Type,
    Expression,
    FieldValue,
}

// A class of parts: one of a sort, or a list record with as many of a sort as its word says.
#[derive(Clone, Copy, PartialEq, Eq)]
pub enum Class {
    One(Sort),
    List(Sort),
}

// What follows a record: fixed parts, or as many parts of one class as its word says.
#[derive(Clone, Copy)]
pub enum Shape {
    Parts(&'static [Class]),
    Each(Class),
}

// The class of a kind's word, none if the kind is unknown.
#[tactic(auto, unfolding(lustre::specs::Records::word_class, lustre::specs::Records::word_classes, lustre::specs::Records::class_in, lustre::specs::Name::mem))]
pub fn word_class(kind: u8) -> Option<WordClass>
    ensures { words_of result ≡ word_class kind }
{
    match kind {
        kinds::PROJECT | kinds::LIST | kinds::TUPLE | kinds::ARRAY => Some(WordClass::Count),
        kinds::PACKAGE
        | kinds::ALIAS..=kinds::IMPORTED
        | kinds::NAMED
        | kinds::VARIABLE
        | kinds::CALL
        | kinds::FIELD
        | kinds::STRUCT
        | kinds::WHEN_TRUE..=kinds::FIELD_VALUE => Some(WordClass::Name),
        kinds::ARRAY_TYPE => Some(WordClass::Length),
        kinds::BOOL_LITERAL => Some(WordClass::Truth),
        kinds::INT_LITERAL | kinds::FLOAT_LITERAL => Some(WordClass::Anything),
        kinds::CHAR_LITERAL => Some(WordClass::Byte),
        kinds::EQUATION
        | kinds::BOOL..=kinds::CHAR
        | kinds::NOT..=kinds::ARROW
        | kinds::INDEX
        | kinds::CAST => Some(WordClass::Nothing),
        _ => None,
    }
}

// What follows a declaration's record.
fn shape_of_declaration(kind: u8) -> Option<Shape>
    ensures { IsShape result (shape_of (one a_declaration) kind) }
{
    match kind {
        kinds::ALIAS => Some(Parts(&[One(Type)])),
        kinds::RECORD => Some(Parts(&[List(Port)])),
        kinds::ENUM => Some(Parts(&[List(Name)])),
        _ => None,
    }
}

// What follows a type's record.
fn shape_of_type(kind: u8) -> Option<Shape>
    ensures { IsShape result (shape_of (one a_type) kind) }
{
    match kind {
        kinds::BOOL..=kinds::CHAR | kinds::NAMED => Some(Parts(&[])),
        kinds::ARRAY_TYPE => Some(Parts(&[One(Type)])),
        _ => None,
    }
}

// What follows an expression's record.
fn shape_of_expression(kind: u8) -> Option<Shape>
    ensures { IsShape result (shape_of (one an_expression) kind) }
{
    match kind {
        kinds::BOOL_LITERAL..=kinds::VARIABLE => Some(Parts(&[])),
        kinds::NOT
        | kinds::MINUS
        | kinds::PRE
        | kinds::FIELD
        | kinds::WHEN_TRUE
        | kinds::WHEN_FALSE => Some(Parts(&[One(Expression)])),
        kinds::AND..=kinds::SHIFT_RIGHT | kinds::ARROW | kinds::INDEX | kinds::MERGE => {
            Some(Parts(&[One(Expression), One(Expression)]))
        }
        kinds::IF => Some(Parts(&[One(Expression), One(Expression), One(Expression)])),
        kinds::CALL | kinds::MAP | kinds::FOLD => Some(Parts(&[List(Expression)])),
        kinds::TUPLE | kinds::ARRAY => Some(Each(One(Expression))),
        kinds::STRUCT => Some(Parts(&[List(FieldValue)])),
        kinds::CAST => Some(Parts(&[One(Type), One(Expression)])),
        kinds::MAP_FROM | kinds::FOLD_FROM => Some(Parts(&[One(Expression), List(Expression)])),
        _ => None,
    }
}

// What follows a record of a kind where a class is wanted, none if it cannot stand there.
#[tactic(auto, using(crate::proofs::Grammar::shapes))]
pub fn shape_of(class: Class, kind: u8) -> Option<Shape>
    ensures { IsShape result (shape_of (class_of class) kind) }
{
    match (class, kind) {
        (List(sort), kinds::LIST) => Some(Each(One(sort))),
        (One(Sort::Project), kinds::PROJECT) => Some(Each(One(Package))),
        (One(Package), kinds::PACKAGE) => {
            Some(Parts(&[List(Declaration), List(Sort::Constant), List(Node)]))
        }
        (One(Declaration), _) => shape_of_declaration(kind),
        (One(Sort::Constant), kinds::CONSTANT) => Some(Parts(&[One(Type), One(Expression)])),
        (One(Node), kinds::FUNCTION..=kinds::IMPORTED) => Some(Parts(&[
            List(Port),
            List(Port),
            List(Port),
            List(Equation),
            List(Name),
        ])),
        (One(Port), kinds::PORT) => Some(Parts(&[One(Type)])),
        (One(Name), kinds::NAME) => Some(Parts(&[])),
        (One(Equation), kinds::EQUATION) => Some(Parts(&[List(Name), One(Expression)])),
        (One(Type), _) => shape_of_type(kind),
        (One(Expression), _) => shape_of_expression(kind),
        (One(FieldValue), kinds::FIELD_VALUE) => Some(Parts(&[One(Expression)])),
        _ => None,
    }
}
