//! Descriptors are read (JVMS 8 section 4.3).
ghost use Rattle.std.specs.Prelude.{◌≡◌, ℕ, ◌+◌, Option, List, [], ◌∷◌, ◌++◌, IfOk, IfErr};
ghost use Rattle.std.specs.Option.{option_map};
ghost use Rattle.kb_names.specs.Types.{shape_of, base_type, arrays_of};
ghost use Rattle.kb_names.specs.Descriptors.{SpellsType, IsTypeText, SpellsMethod, IsMethodText};
ghost use Rattle.kb_names.specs.Stages.{base_of, dims_step, in_name_step, type_step, after_param, after_result, method_step, type_read, method_read};
ghost use Rattle.kb_names.specs.Refusals.{RefusesDescriptor, ReadsDescriptor};
ghost use Rattle.kb_names.specs.declared.types.JType.{JType};
ghost use Rattle.kb_names.specs.declared.types.MethodType.{MethodType};

use crate::class_names::{ClassStage, class_begins};
use crate::stages::{Stage, TextStop, read_text};
use crate::{Component, JType, MethodType, Name, NoMemory, Row, SharedRow, Spelling};
use std::alloc::Global;

/// Why a descriptor was not read.
#[derive(Clone, Copy, PartialEq, Eq)]
pub enum NameRefusal {
    /// The first offset at which no descriptor goes on: the offset of the first byte that may not stand there,
    /// or the text's length where it ends too early.
    BadDescriptor(usize),
    /// Memory ran out.
    NoMemory,
}

// How far a type is read.
#[derive(Drop)]
pub(crate) enum TypeStage {
    // So many dimensions.
    Dims(Spelling, u32),
    // A class's name, after so many dimensions.
    InName(u32, ClassStage),
    Whole(JType),
}

impl Stage for TypeStage {
    type Value = JType;

    ghost step = { type_step };

    ghost read = { type_read };

    #[tactic(auto, unfolding(crate::specs::Stages::type_step))]
    fn next(self, alloc: Global, byte: u8) -> Result<Option<TypeStage>, NoMemory> {
        match self {
            TypeStage::Dims(spelling, dims) => after_dims(alloc, spelling, dims, byte),
            TypeStage::InName(dims, class) => in_name(alloc, dims, class, byte),
            TypeStage::Whole(_) => Ok(None),
        }
    }

    fn whole(self) -> Option<JType> {
        match self {
            TypeStage::Whole(of) => Some(of),
            _ => None,
        }
    }
}

fn after_dims(
    alloc: Global,
    spelling: Spelling,
    dims: u32,
    byte: u8,
) -> Result<Option<TypeStage>, NoMemory>
    ensures { IfOk result (λ next. next ≡ dims_step spelling dims byte) }
{
    match byte {
        b'[' => Ok(if dims < 255 {
            Some(TypeStage::Dims(spelling, dims + 1))
        } else {
            None
        }),
        b'L' => Ok(Some(TypeStage::InName(dims, class_begins(alloc, spelling)))),
        _ => after_base(alloc, dims, byte),
    }
}

fn after_base(alloc: Global, dims: u32, byte: u8) -> Result<Option<TypeStage>, NoMemory>
    ensures { IfOk result (λ next. next ≡ option_map (λ base. TypeStage.Whole (arrays_of dims base)) (base_of byte)) }
{
    match base_spelled(byte) {
        Some(base) => Ok(Some(TypeStage::Whole(arrays(alloc, dims, base)?))),
        None => Ok(None),
    }
}

fn in_name(
    alloc: Global,
    dims: u32,
    class: ClassStage,
    byte: u8,
) -> Result<Option<TypeStage>, NoMemory>
    ensures { IfOk result (λ next. next ≡ in_name_step dims class byte) }
{
    if byte != b';' {
        return match class.next(alloc, byte)? {
            Some(next) => Ok(Some(TypeStage::InName(dims, next))),
            None => Ok(None),
        };
    }
    match class.whole() {
        Some(name) => {
            let class = JType::Class(Name::from_row(name)?);
            Ok(Some(TypeStage::Whole(arrays(alloc, dims, class)?)))
        }
        None => Ok(None),
    }
}

// The base that is spelled by one letter.
fn base_spelled(letter: u8) -> Option<JType>
    ensures { result ≡ option_map base_type (base_of letter) }
{
    match letter {
        b'Z' => Some(JType::Bool),
        b'B' => Some(JType::Byte),
        b'C' => Some(JType::Char),
        b'S' => Some(JType::Short),
        b'I' => Some(JType::Int),
        b'J' => Some(JType::Long),
        b'F' => Some(JType::Float),
        b'D' => Some(JType::Double),
        _ => None,
    }
}

// The array of so many dimensions more.
fn arrays(alloc: Global, dims: u32, base: JType) -> Result<JType, NoMemory>
    ensures { IfOk result (λ type. type ≡ arrays_of (dims + (shape_of base).dims) (shape_of base).base) }
{
    let mut of = base;
    for _ in 0..dims {
        of = JType::Array(Component::new(alloc, of)?);
    }
    Ok(of)
}

// How far a method's descriptor is read.
#[derive(Drop)]
pub(crate) enum MethodStage {
    Opening(Spelling),
    // Behind the parenthesis or behind some parameters.
    Params(Spelling, Row<JType>),
    // In a parameter, behind some others.
    Param(Spelling, Row<JType>, TypeStage),
    // Behind the closing parenthesis.
    Return(Spelling, Row<JType>),
    // In the result.
    Returned(Row<JType>, TypeStage),
    Method(MethodType),
}

impl Stage for MethodStage {
    type Value = MethodType;

    ghost step = { method_step };

    ghost read = { method_read };

    #[tactic(auto, unfolding(crate::specs::Stages::method_step))]
    fn next(self, alloc: Global, byte: u8) -> Result<Option<MethodStage>, NoMemory> {
        match self {
            MethodStage::Opening(spelling) => {
                if byte != b'(' {
                    return Ok(None);
                }
                Ok(Some(MethodStage::Params(spelling, Row::new(alloc))))
            }
            MethodStage::Params(spelling, params) => {
                if byte == b')' {
                    return Ok(Some(MethodStage::Return(spelling, params)));
                }
                param(alloc, spelling, params, TypeStage::Dims(spelling, 0), byte)
            }
            MethodStage::Param(spelling, params, stage) => param(
                alloc, spelling, params, stage, byte,
            ),
            MethodStage::Return(spelling, params) => {
                if byte == b'V' {
                    return Ok(Some(MethodStage::Method(MethodType {
                        params: SharedRow::from_row(params)?,
                        result: None,
                    })));
                }
                returned(alloc, params, TypeStage::Dims(spelling, 0), byte)
            }
            MethodStage::Returned(params, stage) => returned(alloc, params, stage, byte),
            MethodStage::Method(_) => Ok(None),
        }
    }

    fn whole(self) -> Option<MethodType> {
        match self {
            MethodStage::Method(kind) => Some(kind),
            _ => None,
        }
    }
}

// One more byte of a parameter.
fn param(
    alloc: Global,
    spelling: Spelling,
    params: Row<JType>,
    stage: TypeStage,
    byte: u8,
) -> Result<Option<MethodStage>, NoMemory>
    ensures { IfOk result (λ next. next ≡ option_map (after_param spelling params) (type_step stage byte)) }
{
    match stage.next(alloc, byte)? {
        Some(TypeStage::Whole(param)) => Ok(Some(MethodStage::Params(
            spelling,
            params.with(param)?,
        ))),
        Some(stage) => Ok(Some(MethodStage::Param(spelling, params, stage))),
        None => Ok(None),
    }
}

// One more byte of the result.
fn returned(
    alloc: Global,
    params: Row<JType>,
    stage: TypeStage,
    byte: u8,
) -> Result<Option<MethodStage>, NoMemory>
    ensures { IfOk result (λ next. next ≡ option_map (after_result params) (type_step stage byte)) }
{
    match stage.next(alloc, byte)? {
        Some(TypeStage::Whole(of)) => Ok(Some(MethodStage::Method(MethodType {
            params: SharedRow::from_row(params)?,
            result: Some(of),
        }))),
        Some(stage) => Ok(Some(MethodStage::Returned(params, stage))),
        None => Ok(None),
    }
}

/// Reads a whole text as the descriptor of a type in a class file (JVMS 8 section 4.3.2).
pub fn read_type(alloc: Global, text: &[u8]) -> Result<JType, NameRefusal>
    ensures found { IfOk result (λ type. SpellsType Spelling.Raw type text.now) }
    ensures only { (type : JType) → SpellsType Spelling.Raw type text.now → ReadsDescriptor result type }
    ensures bad { IfErr result (RefusesDescriptor (IsTypeText Spelling.Raw) text.now) }
{
    read_type_as(alloc, Spelling::Raw, text)
}

/// Reads a whole text as the descriptor of a type, with the names of classes spelled so.
pub fn read_type_as(alloc: Global, spelling: Spelling, text: &[u8]) -> Result<JType, NameRefusal>
    ensures found { IfOk result (λ type. SpellsType spelling type text.now) }
    ensures only { (type : JType) → SpellsType spelling type text.now → ReadsDescriptor result type }
    ensures bad { IfErr result (RefusesDescriptor (IsTypeText spelling) text.now) }
{
    match read_text(alloc, TypeStage::Dims(spelling, 0), text) {
        Ok(of) => Ok(of),
        Err(TextStop::At(at)) => Err(NameRefusal::BadDescriptor(at)),
        Err(TextStop::NoMemory) => Err(NameRefusal::NoMemory),
    }
}

/// Reads a whole text as the descriptor of a method in a class file (JVMS 8 section 4.3.3). How many
/// parameters there are is not looked at.
pub fn read_method_type(alloc: Global, text: &[u8]) -> Result<MethodType, NameRefusal>
    ensures found { IfOk result (λ kind. SpellsMethod Spelling.Raw kind text.now) }
    ensures only { (kind : MethodType) → SpellsMethod Spelling.Raw kind text.now → ReadsDescriptor result kind }
    ensures bad { IfErr result (RefusesDescriptor (IsMethodText Spelling.Raw) text.now) }
{
    read_method_type_as(alloc, Spelling::Raw, text)
}

/// Reads a whole text as the descriptor of a method, with the names of classes spelled so.
pub fn read_method_type_as(
    alloc: Global,
    spelling: Spelling,
    text: &[u8],
) -> Result<MethodType, NameRefusal>
    ensures found { IfOk result (λ kind. SpellsMethod spelling kind text.now) }
    ensures only { (kind : MethodType) → SpellsMethod spelling kind text.now → ReadsDescriptor result kind }
    ensures bad { IfErr result (RefusesDescriptor (IsMethodText spelling) text.now) }
{
    match read_text(alloc, MethodStage::Opening(spelling), text) {
        Ok(kind) => Ok(kind),
        Err(TextStop::At(at)) => Err(NameRefusal::BadDescriptor(at)),
        Err(TextStop::NoMemory) => Err(NameRefusal::NoMemory),
    }
}
