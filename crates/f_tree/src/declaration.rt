//! Specifications and what is declared in them (ISO/IEC 1539-1:2018, 7.5, 8 and 14.2.2).

use crate::expression::{Expression, TypeSpec};
use crate::name::Name;
use crate::unit::Head;
use f_lex::Kind;
use jf_base::{List, Place};

/// How an END statement spells its words: `end`, `end word` or `endword`.
#[derive(Clone, Copy, PartialEq, Eq, Debug)]
pub enum EndingForm {
    Bare,
    TwoWords,
    OneWord,
}

/// An END statement, with the name behind its words where there is one.
#[derive(Clone, PartialEq, Eq, Drop, Debug)]
pub struct Ending {
    pub place: Place,
    pub form: EndingForm,
    pub name: Option<Name>,
}

/// What stands before the executable part of a unit (ISO/IEC 1539-1:2018, 5.2.1).
#[cycle(specification)]
#[derive(Drop)]
pub struct Specification {
    pub uses: List<Use>,
    pub import: Option<Import>,
    /// The place of IMPLICIT NONE.
    pub implicit_none: Option<Place>,
    pub declarations: List<Declaration>,
}

/// A USE statement (ISO/IEC 1539-1:2018, 14.2.2).
#[derive(Drop)]
pub struct Use {
    pub place: Place,
    pub is_intrinsic: bool,
    pub has_colons: bool,
    pub module: Name,
    pub list: UseList,
}

/// Which names of a module are used.
#[derive(Drop)]
pub enum UseList {
    All,
    /// All, of which these have other names.
    Renamed(List<Rename>),
    /// These alone.
    Only(List<Only>),
}

/// `local => used`
#[derive(Clone, PartialEq, Eq, Drop, Debug)]
pub struct Rename {
    pub local: Name,
    pub used: Name,
}

/// A name behind ONLY.
#[derive(Clone, PartialEq, Eq, Drop, Debug)]
pub enum Only {
    Plain(Name),
    Renamed(Rename),
}

/// An IMPORT statement (ISO/IEC 1539-1:2018, 8.8); with no name it imports all.
#[derive(Drop)]
pub struct Import {
    pub place: Place,
    pub has_colons: bool,
    pub names: List<Name>,
}

/// A declaration (ISO/IEC 1539-1:2018, 5.2.1, R507 and R508).
#[cycle(specification)]
#[derive(Drop)]
pub enum Declaration {
    Variables(Variables),
    DerivedType(DerivedType),
    Interface(Interface),
    Access(AccessStatement),
    Save { place: Place },
    ProcedurePointers(ProcedurePointers),
}

/// A type declaration statement (ISO/IEC 1539-1:2018, 8.2).
#[derive(Drop)]
pub struct Variables {
    pub declared: TypeSpec,
    pub attributes: List<Attribute>,
    pub has_colons: bool,
    pub entities: List<Entity>,
}

/// An attribute of a type declaration (ISO/IEC 1539-1:2018, 8.5).
#[derive(Drop)]
pub struct Attribute {
    pub place: Place,
    pub form: AttributeForm,
}

#[derive(Drop)]
pub enum AttributeForm {
    Parameter,
    Dimension(List<Dimension>),
    Allocatable,
    Pointer,
    Target,
    Optional,
    Value,
    Contiguous,
    Save,
    Access(Access),
    Bind(Bind),
    Intent(Intent),
}

/// Accessibility (ISO/IEC 1539-1:2018, 8.5.2).
#[derive(Clone, Copy, PartialEq, Eq, Debug)]
pub enum Access {
    Public,
    Private,
}

/// What a dummy argument is for (ISO/IEC 1539-1:2018, 8.5.10).
#[derive(Clone, Copy, PartialEq, Eq, Debug)]
pub enum Intent {
    In,
    Out,
    /// `inout`
    InOut,
    /// `in out`
    InOutTwoWords,
}

/// `bind(c)`, with the label where it is named (ISO/IEC 1539-1:2018, 8.5.5).
#[derive(Drop)]
pub struct Bind {
    pub name: Option<BindingName>,
}

/// The text behind `name =`.
#[derive(Drop)]
pub struct BindingName {
    pub bytes: List<u8>,
    pub kind: Option<Kind>,
    pub place: Place,
}

/// A dimension of an array specification (ISO/IEC 1539-1:2018, 8.5.8).
#[derive(Drop)]
pub enum Dimension {
    /// `upper`
    Upper(Expression),
    /// `lower : upper`
    Bounds(Expression, Expression),
    /// `lower :`, the place being that of the colon
    Deferred {
        lower: Option<Expression>,
        place: Place,
    },
    /// `lower : *`, the place being that of the star
    AssumedSize {
        lower: Option<Expression>,
        place: Place,
    },
    /// `..`
    AssumedRank {
        place: Place,
    },
}

/// A name that is declared.
#[derive(Drop)]
pub struct Entity {
    pub name: Name,
    pub dimensions: Option<List<Dimension>>,
    pub initial: Option<Initial>,
}

/// An initial value (ISO/IEC 1539-1:2018, 8.2).
#[derive(Drop)]
pub enum Initial {
    /// `= value`
    Value(Expression),
    /// `=> null()`, the place being that of the word
    Null { place: Place },
}

/// The definition of a derived type (ISO/IEC 1539-1:2018, 7.5.2).
#[derive(Drop)]
pub struct DerivedType {
    pub place: Place,
    pub attributes: List<TypeAttribute>,
    pub has_colons: bool,
    pub name: Name,
    pub components: List<Component>,
    pub ending: Ending,
}

/// An attribute of a derived type.
#[derive(Drop)]
pub enum TypeAttribute {
    Bind { place: Place, bind: Bind },
    Access { place: Place, access: Access },
}

/// A statement that declares components (ISO/IEC 1539-1:2018, 7.5.4).
#[derive(Drop)]
pub struct Component {
    pub declared: TypeSpec,
    pub dimensions: Option<List<Dimension>>,
    pub fields: List<Field>,
}

/// A component.
#[derive(Drop)]
pub struct Field {
    pub name: Name,
    pub dimensions: Option<List<Dimension>>,
}

/// An interface block (ISO/IEC 1539-1:2018, 15.4.3.2).
#[cycle(specification)]
#[derive(Drop)]
pub struct Interface {
    pub place: Place,
    pub is_abstract: bool,
    pub bodies: List<InterfaceBody>,
    pub ending: Ending,
}

/// An interface body.
#[cycle(specification)]
#[derive(Drop)]
pub struct InterfaceBody {
    pub head: Head,
    pub specification: Specification,
    pub ending: Ending,
}

/// An access statement (ISO/IEC 1539-1:2018, 8.6.1); with no name it is for all.
#[derive(Drop)]
pub struct AccessStatement {
    pub place: Place,
    pub access: Access,
    pub has_colons: bool,
    pub names: List<Name>,
}

/// A declaration of procedure pointers (ISO/IEC 1539-1:2018, 15.4.3.6).
#[derive(Drop)]
pub struct ProcedurePointers {
    pub place: Place,
    pub interface: Name,
    pub attributes: List<PointerAttribute>,
    pub pointers: List<ProcedurePointer>,
}

/// An attribute of procedure pointers beside POINTER.
#[derive(Clone, Copy, PartialEq, Eq, Debug)]
pub enum PointerAttribute {
    Save { place: Place },
    Access { place: Place, access: Access },
}

/// A procedure pointer, and the place of `null` where it begins so.
#[derive(Drop)]
pub struct ProcedurePointer {
    pub name: Name,
    pub null: Option<Place>,
}
