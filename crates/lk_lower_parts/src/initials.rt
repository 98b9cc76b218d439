//! What objects of static storage begin with.

ghost use Rattle.std.specs.Prelude.{◌≡◌, ◌<◌, ◌++◌, IfOk, OnOk, length};
ghost use Rattle.lk_facts.specs.declared.initial.InitialValue.TheVariants as begins;
ghost use Rattle.lk_lower_parts.specs.Givens.{AddsSource, AreInitials, initial_by, object_by, value_by};

use crate::counts::definition_of;
use crate::names::{Given, number_at};
use crate::roots::row_of;
use lk_base::{CellStep, NoMemory, Seq};
use lk_facts::{Initial, InitialValue};
use lk_typed::{Linked, StaticObject, StaticPart, StaticValue};
use std::alloc::Global;

/// The steps of a path, once more.
fn copied(alloc: Global, path: &Seq<CellStep>) -> Result<Seq<CellStep>, NoMemory>
    ensures { IfOk result (λ copy. copy ≡ path.now) }
{
    Ok(Seq::new(Vec::from_slice(alloc, path.list())?))
}

impl Given<'_> {
    /// What an address in a root is.
    fn address(&self, root: u32, path: &Seq<CellStep>, past: bool) -> Result<InitialValue, NoMemory>
        ensures { IfOk result (λ value. value ≡ begins.Address root path.now past) }
    {
        Ok(InitialValue::Address {
            root,
            path: copied(self.alloc, path)?,
            past,
        })
    }

    /// What a part begins with.
    fn value(
        &self,
        linked: &Linked,
        by_node: &[u32],
        value: &StaticValue,
    ) -> Result<InitialValue, NoMemory>
        ensures { IfOk result (λ begins. begins ≡ value_by self.now linked.now by_node.now value.now) }
    {
        match value {
            StaticValue::Number(number) => Ok(InitialValue::Number(*number)),
            StaticValue::Null => Ok(InitialValue::Null),
            StaticValue::Function(e) => Ok(InitialValue::Function(self.function_of(definition_of(
                self.whole, linked, *e,
            )))),
            StaticValue::Address(e, path, past) => {
                let root = self.root_of(definition_of(self.whole, linked, *e));
                self.address(root, path, *past)
            }
            StaticValue::Text(node, path, past) => {
                self.address(number_at(by_node, *node), path, *past)
            }
            StaticValue::Ready => Ok(InitialValue::Ready),
        }
    }

    /// What a part of an object begins with.
    fn initial(
        &self,
        linked: &Linked,
        by_node: &[u32],
        root: u32,
        part: &StaticPart,
    ) -> Result<Initial, NoMemory>
        ensures { IfOk result (λ initial.
            initial ≡ initial_by self.now linked.now by_node.now root part.now) }
    {
        Ok(Initial {
            root,
            path: copied(self.alloc, &part.path)?,
            value: self.value(linked, by_node, &part.value)?,
        })
    }

    /// Adds what the parts of an object begin with.
    fn push_object(
        &self,
        linked: &Linked,
        by_node: &[u32],
        object: &StaticObject,
        out: &mut Vec<Initial>,
    ) -> Result<(), NoMemory>
        ensures { OnOk result (out.new.items ≡
            out.old.items ++ object_by self.now linked.now by_node.now object.now) }
    {
        let root = self.root_of(definition_of(self.whole, linked, object.entity));
        for part in object.parts.list() {
            let initial = self.initial(linked, by_node, root, part)?;
            out.push(initial)?;
        }
        Ok(())
    }

    /// Adds what the objects of a source begin with.
    fn push_objects(&self, source: usize, out: &mut Vec<Initial>) -> Result<(), NoMemory>
        requires { source < length self.now.whole.now.sources }
        ensures { OnOk result (AddsSource self.now source out.old.items out.new.items) }
    {
        let linked = self.linked(source);
        let by_node = row_of(self.by_node, source);
        for object in linked.unit.objects.list() {
            self.push_object(linked, by_node, object, out)?;
        }
        Ok(())
    }

    /// What the program's objects of static storage begin with, where that is named: in the order of
    /// the sources and of the text.
    pub fn initials(&self) -> Result<Seq<Initial>, NoMemory>
        ensures { IfOk result (AreInitials self.now) }
    {
        let mut out = Vec::new(self.alloc);
        for source in 0..self.whole.sources.len() {
            self.push_objects(source, &mut out)?;
        }
        Ok(Seq::new(out))
    }
}
