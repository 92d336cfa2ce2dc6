//! The packages of a script, which are kept in a pool, and what the lines of a catalogue add to them.
//!
//! What they answer a store as its provider is in [`provider`](crate::provider).
ghost use Rattle.std.specs.Prelude.{◌≡◌, ◌<◌, ◌-◌, false, true, [], All, length, Some};
ghost use Rattle.std.specs.Prelude.{None, string_bytes, IfOk, OnOk, OnErr, IfErr};
ghost use Rattle.package_pool.specs.Pool.{IsOfItself, with_string};
ghost use Rattle.package_pool.specs.PoolProps.{pool_props};
ghost use Rattle.script_text.specs.declared.fault.LineFault.TheVariants.{Memory, Unreadable};
ghost use Rattle.script_text.specs.Words.{words};
ghost use Rattle.script_text.specs.Numbers.{below, number_of};
ghost use Rattle.script_packages.specs.Versions.{are_versions};

use crate::catalogue_line::CatalogueLine;
use crate::ids::id_of;
use crate::span_map::SpanMap;
use crate::versions::{are_versions, favored_place, version_of};
use package_pool::{Pool, VersionSet};
use providers::Condition;
use script_text::{LineFault, NumberWord, next_number};
use std::alloc::Global;
use typed_ids::{DenseIndex, NameId, SolvableId, VersionSetId};

/// A pool has no more names than this.
const MOST_NAMES: usize = 1 << 32;

/// The solvables of a package: those from `first` to `last`.
#[derive(Clone, Copy, Debug, PartialEq, Eq)]
pub struct Span {
    pub first: SolvableId,
    pub last: SolvableId,
    /// The place of the favored one among them.
    pub favored: Option<usize>,
}

/// The versions from `low` to below `high`.
#[derive(Clone, Copy, Debug, PartialEq, Eq, Hash)]
pub struct VersionRange {
    pub low: u32,
    pub high: u32,
}

impl VersionSet for VersionRange {
    type V = u32;
}

/// The packages that a catalogue lists.
#[derive(Drop)]
pub struct Packages {
    /// Names, solvables with their versions, and all else by its id.
    pub pool: Pool<VersionRange>,
    /// The solvables of each name that a package line listed.
    pub spans: SpanMap,
    alloc: Global,
    ghost of_itself: { IsOfItself pool } by { Prim.hlevel pool_props },
}

impl Packages {
    ghost use Rattle.script_packages.specs.Ids.{number_32};
    ghost use Rattle.script_packages.specs.CatalogueLines.{plain_said};
    ghost use Rattle.script_packages.specs.Catalogues.{listed, CanBeListed};
    ghost use Rattle.script_packages.specs.Packages.{span_of};
    ghost use Rattle.script_packages.specs.Listing.{listing_of, nothing_listed, named};
    ghost use Rattle.script_packages.specs.Listing.{name_number, has_span, with_pool};
    ghost use Rattle.script_packages.specs.Listing.{with_version, with_span_from, with_set};
    ghost use Rattle.script_packages.specs.Listing.{with_versions, listed_versions};
    ghost use Rattle.script_packages.specs.Listing.{listed_sets, with_some_union};
    ghost use Rattle.script_packages.specs.Listing.{is_made_of_listed, with_listed_condition};
    ghost use Rattle.script_packages.specs.Listing.{are_sets, is_listed};

    /// No packages.
    pub fn new(alloc: Global) -> Packages
        ensures { listing_of result ≡ nothing_listed }
    {
        Packages {
            pool: Pool::new(alloc),
            spans: SpanMap::new(alloc),
            alloc,
        }
    }

    /// The solvables of a name that a package line listed.
    pub fn span(&self, name: NameId) -> Option<Span>
        ensures { result ≡ span_of self.now.spans (length self.now.pool.solvables) name }
    {
        match self.spans.get_copy(name) {
            Some(span) if self.pool.knows_solvable(span.last) => Some(span),
            _ => None,
        }
    }

    /// Whether a package line listed the name.
    fn has_span(&self, name: NameId) -> bool
        ensures { result ≡ has_span (listing_of self.now) name }
    {
        self.spans.get_copy(name).is_some()
    }

    /// Adds what a line says. Where memory is refused, the words that are left are read all the same, so that a line
    /// that isn't in the format is found; so is a second line of a package whose name finds no room.
    pub(crate) fn add(&mut self, line: &CatalogueLine<'_>) -> Result<(), LineFault>
        ensures ok { OnOk result (listed (listing_of self.old) (plain_said line.now) ≡ Some (listing_of self.new)) }
        ensures unreadable { IfErr result (λ e. e ≡ Unreadable →
            listed (listing_of self.old) (plain_said line.now) ≡ None) }
        ensures memory { IfErr result (λ e. e ≡ Memory → CanBeListed (listing_of self.old) (plain_said line.now)) }
    {
        match line {
            CatalogueLine::Package { name, versions } => self.add_package(name, versions),
            CatalogueLine::Set { name, low, high } => {
                let name = self.known_or_new(name)?;
                let (low, high) = (*low, *high);
                self.add_set(name, VersionRange { low, high })
            }
            CatalogueLine::Union { sets } => self.add_union(sets),
            CatalogueLine::Condition(condition) => self.add_condition(*condition),
            CatalogueLine::String(text) => self.add_string(text),
            CatalogueLine::Begin => Ok(()),
        }
    }

    /// Adds a package line.
    #[tactic(auto, using(crate::proofs::Unread::no_package))]
    fn add_package(&mut self, name: &str, versions: &[u8]) -> Result<(), LineFault>
        ensures ok { let l = listing_of self.old in
            OnOk result (with_versions (named l name.now) (name_number l name.now) (words versions.now)
            ≡ Some (listing_of self.new)) }
        ensures unreadable { let l = listing_of self.old in IfErr result (λ e. e ≡ Unreadable →
            with_versions (named l name.now) (name_number l name.now) (words versions.now) ≡ None) }
        ensures memory { IfErr result (λ e. e ≡ Memory →
            (are_versions (words versions.now) ≡ true) × (is_listed (listing_of self.old) name.now ≡ false)) }
    {
        match self.list_package(name, versions) {
            Err(LineFault::Memory) if !are_versions(versions) => Err(LineFault::Unreadable),
            ended => ended,
        }
    }

    /// Lists a package, up to the first word that is no version, or to where memory is refused; nothing where two words
    /// have a star.
    fn list_package(&mut self, name: &str, versions: &[u8]) -> Result<(), LineFault>
        ensures ok { let l = listing_of self.old in
            OnOk result (with_versions (named l name.now) (name_number l name.now) (words versions.now)
            ≡ Some (listing_of self.new)) }
        ensures unreadable { let l = listing_of self.old in IfErr result (λ e. e ≡ Unreadable →
            with_versions (named l name.now) (name_number l name.now) (words versions.now) ≡ None) }
        ensures memory { IfErr result (λ e. e ≡ Memory → is_listed (listing_of self.old) name.now ≡ false) }
    {
        match self.name(name) {
            Ok(name) => self.add_versions(name, versions),
            Err(_) => Err(self.unnamed(name)),
        }
    }

    /// The fault of a package line whose name finds no room.
    fn unnamed(&self, name: &str) -> LineFault
        ensures unreadable { result ≡ Unreadable → is_listed (listing_of self.now) name.now ≡ true }
        ensures memory { result ≡ Memory → is_listed (listing_of self.now) name.now ≡ false }
    {
        if self.is_listed(name) {
            LineFault::Unreadable
        } else {
            LineFault::Memory
        }
    }

    /// Whether a package line listed the name. It takes no memory, but a step for each name.
    fn is_listed(&self, name: &str) -> bool
        ensures { result ≡ is_listed (listing_of self.now) name.now }
    {
        self.pool.tell_sound();
        for index in 0..MOST_NAMES {
            let id = NameId::from_index(index);
            if !self.pool.knows_name(id) {
                return false;
            }
            if name == self.pool.resolve_package_name(id).as_str() {
                return self.has_span(id);
            }
        }
        false
    }

    /// Gives a name its versions, each of which is a solvable. A name is listed once.
    fn add_versions(&mut self, name: NameId, versions: &[u8]) -> Result<(), LineFault>
        requires { name < length self.old.pool.names }
        ensures ok { OnOk result (with_versions (listing_of self.old) name (words versions.now) ≡
            Some (listing_of self.new)) }
        ensures unreadable { IfErr result (λ e. e ≡ Unreadable →
            with_versions (listing_of self.old) name (words versions.now) ≡ None) }
        ensures memory { IfErr result (λ e. e ≡ Memory → has_span (listing_of self.old) name ≡ false) }
    {
        if self.has_span(name) {
            return Err(LineFault::Unreadable);
        }
        let favored = favored_place(versions)?;
        let Some((word, others)) = next_number(versions) else {
            return Err(LineFault::Unreadable);
        };
        let Some(version) = version_of(&word) else {
            return Err(LineFault::Unreadable);
        };
        let first = self.add_version(name, version)?;
        let last = self.add_others(name, first, others)?;
        let span = Span {
            first,
            last,
            favored,
        };
        self.add_span(name, span)
    }

    /// Makes a solvable of each version in the text, after the last one; answers which is the last one then.
    fn add_others(
        &mut self,
        name: NameId,
        mut last: SolvableId,
        text: &[u8],
    ) -> Result<SolvableId, LineFault>
        requires name { name < length self.old.pool.names }
        requires last { last ≡ length self.old.pool.solvables - 1 }
        ensures ok { OnOk result (listed_versions (listing_of self.old) name (words text.now) ≡
            Some (listing_of self.new)) }
        ensures last { IfOk result (λ s. s ≡ length self.new.pool.solvables - 1) }
        ensures spans { self.new.spans ≡ self.old.spans }
        ensures unreadable { IfErr result (λ e. e ≡ Unreadable →
            listed_versions (listing_of self.old) name (words text.now) ≡ None) }
    {
        let mut rest = text;
        while let Some((word, others)) = next_number(rest) {
            match version_of(&word) {
                Some(version) => last = self.add_version(name, version)?,
                None => return Err(LineFault::Unreadable),
            }
            rest = others;
        }
        Ok(last)
    }

    /// Adds a union of the version sets in the text, of which there is one at least.
    #[tactic(auto, using(crate::proofs::Unread::no_union))]
    fn add_union(&mut self, text: &[u8]) -> Result<(), LineFault>
        ensures ok { OnOk result (with_some_union (listing_of self.old)
            (listed_sets (length self.old.pool.version_sets) [] (words text.now))
            ≡ Some (listing_of self.new)) }
        ensures unreadable { IfErr result (λ e. e ≡ Unreadable →
            with_some_union (listing_of self.old)
            (listed_sets (length self.old.pool.version_sets) [] (words text.now)) ≡ None) }
        ensures memory { IfErr result (λ e. e ≡ Memory →
            are_sets (length self.old.pool.version_sets) (words text.now) ≡ true) }
    {
        match self.unite(text) {
            Err(LineFault::Memory) if !self.are_sets(text) => Err(LineFault::Unreadable),
            ended => ended,
        }
    }

    /// Adds a union, unless a word is no version set, or memory is refused.
    fn unite(&mut self, text: &[u8]) -> Result<(), LineFault>
        ensures ok { OnOk result (with_some_union (listing_of self.old)
            (listed_sets (length self.old.pool.version_sets) [] (words text.now))
            ≡ Some (listing_of self.new)) }
        ensures unreadable { IfErr result (λ e. e ≡ Unreadable →
            with_some_union (listing_of self.old)
            (listed_sets (length self.old.pool.version_sets) [] (words text.now)) ≡ None) }
        ensures kept { OnErr result (self.new.pool.version_sets ≡ self.old.pool.version_sets) }
    {
        let sets = self.sets(text)?;
        let Some((first, others)) = sets.split_first() else {
            return Err(LineFault::Unreadable);
        };
        self.pool
            .intern_version_set_union(*first, others)
            .map_err(|_| LineFault::Memory)?;
        Ok(())
    }

    /// The version sets in the text, each of which is there.
    fn sets(&self, text: &[u8]) -> Result<Vec<VersionSetId>, LineFault>
        ensures ok { IfOk result (λ sets. listed_sets (length self.now.pool.version_sets) [] (words text.now) ≡
            Some sets.items) }
        ensures known { IfOk result (λ sets. All (λ v. v.0 < length self.now.pool.version_sets) sets.items) }
        ensures unreadable { IfErr result (λ e. e ≡ Unreadable →
            listed_sets (length self.now.pool.version_sets) [] (words text.now) ≡ None) }
    {
        let mut sets = Vec::new(self.alloc);
        let mut rest = text;
        while let Some((word, others)) = next_number(rest) {
            sets.push(self.set(&word)?)?;
            rest = others;
        }
        Ok(sets)
    }

    /// Whether each word of the text stands for a version set that is there.
    fn are_sets(&self, text: &[u8]) -> bool
        ensures { result ≡ are_sets (length self.now.pool.version_sets) (words text.now) }
    {
        let mut rest = text;
        while let Some((word, others)) = next_number(rest) {
            if self.set(&word).is_err() {
                return false;
            }
            rest = others;
        }
        true
    }

    /// The version set that a word stands for whose number was read with it.
    fn set(&self, word: &NumberWord<'_>) -> Result<VersionSetId, LineFault>
        requires { word.now.number ≡ number_of word.now.word.now }
        ensures ok { IfOk result (λ set.
            below (length self.now.pool.version_sets) (number_32 word.now.word.now) ≡ Some set.0) }
        ensures unreadable { IfErr result (λ e. (e ≡ Unreadable) ×
            (below (length self.now.pool.version_sets) (number_32 word.now.word.now) ≡ None)) }
    {
        match id_of(word) {
            Some(index) if self.pool.knows_version_set(VersionSetId(index)) => Ok(VersionSetId(
                index,
            )),
            _ => Err(LineFault::Unreadable),
        }
    }

    /// Whether what a condition is made of is there.
    fn is_made_of_listed(&self, condition: &Condition) -> bool
        ensures { result ≡ is_made_of_listed (listing_of self.now) condition.now }
    {
        match condition {
            Condition::Binary(_, left, right) => {
                self.pool.knows_condition(*left) && self.pool.knows_condition(*right)
            }
            Condition::Requirement(set) => self.pool.knows_version_set(*set),
        }
    }

    /// Adds a condition, if it isn't there.
    fn add_condition(&mut self, condition: Condition) -> Result<(), LineFault>
        ensures ok { OnOk result (with_listed_condition (listing_of self.old) condition ≡ Some (listing_of self.new)) }
        ensures unreadable { IfErr result (λ e. e ≡ Unreadable →
            with_listed_condition (listing_of self.old) condition ≡ None) }
        ensures memory { IfErr result (λ e. e ≡ Memory → is_made_of_listed (listing_of self.old) condition ≡ true) }
    {
        if !self.is_made_of_listed(&condition) {
            return Err(LineFault::Unreadable);
        }
        self.pool
            .intern_condition(condition)
            .map_err(|_| LineFault::Memory)?;
        Ok(())
    }

    /// Gives a name its solvables, of which the last is the last of all.
    fn add_span(&mut self, name: NameId, span: Span) -> Result<(), LineFault>
        requires new { has_span (listing_of self.old) name ≡ false }
        requires last { span.last ≡ length self.old.pool.solvables - 1 }
        ensures ok { OnOk result (listing_of self.new ≡
            with_span_from name span.first span.favored (listing_of self.old)) }
        ensures err { IfErr result (λ e. e ≡ Memory) }
    {
        self.spans
            .insert_copy(name, span)
            .map_err(|_| LineFault::Memory)?;
        Ok(())
    }

    /// The id of a name, which gets one if it has none. No text is made of a known one.
    fn known_or_new(&mut self, name: &str) -> Result<NameId, LineFault>
        ensures number { IfOk result (λ n. n ≡ name_number (listing_of self.old) name.now) }
        ensures ok { OnOk result (listing_of self.new ≡ named (listing_of self.old) name.now) }
        ensures known { IfOk result (λ n. n < length self.new.pool.names) }
        ensures err { IfErr result (λ e. e ≡ Memory) }
        ensures kept { OnErr result (listing_of self.new ≡ listing_of self.old) }
    {
        match self.pool.find_package_name(name) {
            Some(known) => Ok(known),
            None => self.name(name),
        }
    }

    /// The id of a name, which gets one if it has none.
    fn name(&mut self, name: &str) -> Result<NameId, LineFault>
        ensures number { IfOk result (λ n. n ≡ name_number (listing_of self.old) name.now) }
        ensures ok { OnOk result (listing_of self.new ≡ named (listing_of self.old) name.now) }
        ensures known { IfOk result (λ n. n < length self.new.pool.names) }
        ensures err { IfErr result (λ e. e ≡ Memory) }
        ensures kept { OnErr result (listing_of self.new ≡ listing_of self.old) }
    {
        let text = String::from_str(self.alloc, name)?;
        self.pool
            .intern_package_name(text)
            .map_err(|_| LineFault::Memory)
    }

    /// Adds a string, if it isn't there.
    fn add_string(&mut self, text: &str) -> Result<(), LineFault>
        ensures ok { let l = listing_of self.old in
            OnOk result (listing_of self.new ≡ with_pool l (with_string l.pool text.now)) }
        ensures err { IfErr result (λ e. e ≡ Memory) }
    {
        let text = String::from_str(self.alloc, text)?;
        self.pool
            .intern_string(text)
            .map_err(|_| LineFault::Memory)?;
        Ok(())
    }

    /// Adds a version of a package, as a solvable.
    fn add_version(&mut self, name: NameId, version: u32) -> Result<SolvableId, LineFault>
        requires { name < length self.old.pool.names }
        ensures id { IfOk result (λ s. s ≡ length self.old.pool.solvables) }
        ensures ok { OnOk result (listing_of self.new ≡ with_version (listing_of self.old) name version) }
        ensures spans { self.new.spans ≡ self.old.spans }
        ensures err { IfErr result (λ e. e ≡ Memory) }
    {
        self.pool
            .intern_solvable(name, version)
            .map_err(|_| LineFault::Memory)
    }

    /// Adds a version set of a package, if it isn't there.
    fn add_set(&mut self, name: NameId, range: VersionRange) -> Result<(), LineFault>
        requires { name < length self.old.pool.names }
        ensures ok { OnOk result (listing_of self.new ≡ with_set (listing_of self.old) name range) }
        ensures err { IfErr result (λ e. e ≡ Memory) }
    {
        self.pool
            .intern_version_set(name, range)
            .map_err(|_| LineFault::Memory)?;
        Ok(())
    }
}
