//! Objects under identifiers, which are never given twice.

ghost use Rattle.std.specs.Prelude.{◌≡◌, ◌+◌, [], IfOk, OnErr, OnOk, length, option_map};
ghost use Rattle.kmip_memory_store.specs.declared.object.Step.TheVariants.{Destroy};
ghost use Rattle.kmip_memory_store.specs.Objects.{Comes, IsGone, KeepsOthers, Steps, at, objects_of};
ghost use Rattle.kmip_memory_store.specs.States.{object_born};

use crate::object::{Dates, Denied, Object, State, Step};
use std::alloc::{AllocError, Allocator, Global};

/// The objects of a server. Identifiers count from 0 in the order in which objects came; one that is destroyed keeps its own.
#[derive(Drop)]
pub struct Store<T, A: Allocator = Global> {
    objects: Vec<Object<T, A>, A>,
}

impl<T: Drop, A: Allocator> Store<T, A> {
    /// No objects.
    pub fn new(alloc: A) -> Store<T, A>
        ensures { objects_of result ≡ [] }
    {
        Store {
            objects: Vec::new(alloc),
        }
    }

    /// How many objects ever came: their identifiers are below it.
    pub fn count(&self) -> usize
        ensures { result ≡ length (objects_of self.now) }
    {
        self.objects.len()
    }

    /// Keeps an object, as Create and Register do (KMIP 1.0, sections 4.1 and 4.3), and returns its identifier, which no object had
    /// before. It isn't in use yet. The only error is out of memory: then nothing is kept.
    pub fn add(&mut self, about: T, material: Vec<u8, A>, now: i64) -> Result<usize, AllocError>
        ensures comes { IfOk result (λ id. Comes (object_born about material now) id self.old self.new) }
        ensures count { IfOk result (λ id. id + 1 ≡ length (objects_of self.new)) }
        ensures next { IfOk result (λ id. id ≡ length (objects_of self.old)) }
        ensures kept { OnErr result (objects_of self.new ≡ objects_of self.old) }
    {
        let id = self.objects.len();
        self.objects.push(Object {
            about,
            material: Some(material),
            state: State::PreActive,
            dates: Dates::new(now),
        })?;
        Ok(id)
    }

    /// The object of an identifier, if there ever was one.
    pub fn get(&self, id: usize) -> Option<&Object<T, A>>
        ensures { option_map (λ object. object.now) result ≡ at self.now id }
    {
        self.objects.as_slice().get(id)
    }

    /// Takes a step of an object's life now. It is denied if there is no such object, or its state doesn't allow the step: then nothing
    /// changes. The material of an object that is destroyed is gone.
    pub fn take(&mut self, id: usize, step: Step, now: i64) -> Result<(), Denied>
        ensures steps { Steps step now id self.old result self.new }
        ensures denied { OnErr result (objects_of self.new ≡ objects_of self.old) }
        ensures gone { OnOk result (step ≡ Destroy → IsGone id self.new) }
        ensures others { KeepsOthers id self.old self.new }
    {
        if id >= self.objects.len() {
            return Err(Denied::NotFound);
        }
        self.objects[id].take(step, now)
    }
}
