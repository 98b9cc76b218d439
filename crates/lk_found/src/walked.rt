//! What is found of the forms of a declarator, gathered from the name on (C99 6.7.5).
ghost use Rattle.std.specs.Prelude.{◌≡◌, [], false, Some, None, IfOk, if◌then◌else◌};
ghost use Rattle.lk_found.specs.Walked.{HasFunction, HasLayer};
ghost use Rattle.lk_found.specs.declared.layers.Layer.TheVariants as code;

use crate::found::At;
use crate::layers::Layer;
use crate::parameters::ParametersFound;
use crate::shapes::LayerAt;
use lk_base::NoMemory;
use lk_check_decl::ArraySize;
use lk_names::LeftScope;
use std::alloc::Global;

/// What is found of the size of an array.
#[derive(Clone, Copy)]
pub struct SizeFound {
    /// The size.
    pub size: ArraySize,
    /// Whether a `sizeof` stands in it.
    pub holds_sizeof: bool,
}

/// What is found of the forms of a declarator.
#[derive(Drop)]
pub struct Walked {
    /// The forms that make types, the innermost first.
    pub layers: Vec<LayerAt>,
    /// Whether there is nothing but the name, perhaps in parentheses.
    pub is_name: bool,
    /// Whether a `sizeof` stands in it.
    pub holds_sizeof: bool,
    /// What the parameters declare of the function declarator beside the name.
    pub parameters: Option<LeftScope>,
}

impl Walked {
    /// No form: a name, or a declarator that is missing.
    pub fn new(alloc: Global, is_name: bool) -> Walked
        ensures layers { result.layers.items ≡ [] }
        ensures is_name { result.is_name ≡ is_name }
        ensures holds_sizeof { result.holds_sizeof ≡ false }
        ensures parameters { result.parameters ≡ None }
    {
        Walked {
            layers: Vec::new(alloc),
            is_name,
            holds_sizeof: false,
            parameters: None,
        }
    }

    /// One more form around it, in which a `sizeof` stands or not.
    fn with_layer(mut self, form: LayerAt, holds_sizeof: bool) -> Result<Walked, NoMemory>
        ensures { IfOk result (λ walked. HasLayer self walked form holds_sizeof) }
    {
        self.layers.push(form)?;
        self.is_name = false;
        self.holds_sizeof = self.holds_sizeof || holds_sizeof;
        Ok(self)
    }

    /// A pointer around it.
    pub fn with_pointer(self, at: At) -> Result<Walked, NoMemory>
        ensures { IfOk result (λ walked.
            HasLayer self walked (record { at = at; layer = code.Pointer }) false) }
    {
        let form = LayerAt {
            at,
            layer: Layer::Pointer,
        };
        self.with_layer(form, false)
    }

    /// An array around it.
    pub fn with_array(self, at: At, found: SizeFound) -> Result<Walked, NoMemory>
        ensures { IfOk result (λ walked.
            HasLayer self walked (record { at = at; layer = code.Array found.size }) found.holds_sizeof) }
    {
        let form = LayerAt {
            at,
            layer: Layer::Array(found.size),
        };
        self.with_layer(form, found.holds_sizeof)
    }

    /// The parameters of a function declarator declare this: it is wanted where they stand beside the name.
    fn with_parameters(mut self, scope: LeftScope) -> Walked
        ensures layers { result.layers.items ≡ self.layers.items }
        ensures holds_sizeof { result.holds_sizeof ≡ self.holds_sizeof }
        ensures parameters { result.parameters ≡ (if self.is_name then Some scope else self.parameters) }
    {
        if self.is_name {
            self.parameters = Some(scope);
        }
        self
    }

    /// A function with these parameters around it.
    pub fn with_function(
        self,
        at: At,
        found: ParametersFound,
        dots: bool,
    ) -> Result<Walked, NoMemory>
        ensures { IfOk result (λ walked. HasFunction self walked at dots found) }
    {
        let ParametersFound {
            types,
            holds_sizeof,
            scope,
        } = found;
        let beside = self.with_parameters(scope);
        let form = LayerAt {
            at,
            layer: Layer::Function(types, dots),
        };
        beside.with_layer(form, holds_sizeof)
    }
}
