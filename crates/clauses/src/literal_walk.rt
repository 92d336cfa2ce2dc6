//! Where the literals of a clause are stored, and walks over them.
ghost use Rattle.std.specs.Prelude.{◌≡◌, ◌++◌, Bool, map, flat_map, find, option_to_list, OnOk, IfOk, IfErr};
ghost use Rattle.typed_ids.specs.declared.error.StoreError.TheVariants.{OutOfMemory};
ghost use Rattle.decisions.specs.Literals.{Lit, Pos, Neg};
ghost use Rattle.clauses.specs.Walks.{IsFirstTrue, literals_in};

use decisions::Literal;
use std::alloc::Allocator;
use typed_ids::{StoreError, VariableId};

/// The places of a clause's literals, in order: two that it may have itself, those that are stored for it, and those of
/// candidates, which are stored as variables.
#[derive(Drop)]
pub struct LiteralWalk<'a, A: Allocator> {
    pub first: Option<Literal>,
    pub second: Option<Literal>,
    pub stored: &'a [Literal],
    pub candidates: &'a [VariableId],
    pub lists: &'a [Vec<VariableId, A>],
}

impl<'a, A: Allocator> LiteralWalk<'a, A> {
    /// The first literal that passes the test.
    pub fn find<F: Fn(Literal) -> bool>(&self, test: F) -> Option<Literal>
        requires { F.IsAlwaysCallable test }
        ensures first { IsFirstTrue (λ l b. F.post test l b) (literals_in self.now) result }
        ensures tested { (passes : Lit → Bool) → ((l : Lit) (b : Bool) → F.post test l b → b ≡ passes l) →
            result ≡ find passes (literals_in self.now) }
    {
        self.find_in_order(test)
    }

    /// Tries place by place.
    fn find_in_order<F: Fn(Literal) -> bool>(&self, test: F) -> Option<Literal>
        requires { F.IsAlwaysCallable test }
        ensures { IsFirstTrue (λ l b. F.post test l b) (literals_in self.now) result }
    {
        if let Some(literal) = find_own(self.first, &test) {
            return Some(literal);
        }
        if let Some(literal) = find_own(self.second, &test) {
            return Some(literal);
        }
        if let Some(literal) = find_stored(self.stored, &test) {
            return Some(literal);
        }
        if let Some(literal) = find_candidate(self.candidates, &test) {
            return Some(literal);
        }
        find_in_lists(self.lists, &test)
    }

    /// All the literals.
    pub fn collect(&self, alloc: A) -> Result<Vec<Literal, A>, StoreError>
        ensures ok { IfOk result (λ literals. literals.items ≡ literals_in self.now) }
        ensures memory { IfErr result (λ e. e ≡ OutOfMemory) }
    {
        let mut literals = Vec::new(alloc);
        if let Some(literal) = self.first {
            literals.push(literal)?;
        }
        if let Some(literal) = self.second {
            literals.push(literal)?;
        }
        literals.extend_from_slice(self.stored)?;
        push_candidates(&mut literals, self.candidates)?;
        push_lists(&mut literals, self.lists)?;
        Ok(literals)
    }
}

/// The variable's own literal.
pub fn positive(variable: VariableId) -> Literal
    ensures { result ≡ Pos variable }
{
    Literal::new(variable, false)
}

/// The negation of the variable's literal.
pub fn negative(variable: VariableId) -> Literal
    ensures { result ≡ Neg variable }
{
    Literal::new(variable, true)
}

/// The first of these literals that passes the test.
pub(crate) fn find_among<F: Fn(Literal) -> bool>(literals: &[Literal], test: F) -> Option<Literal>
    requires { F.IsAlwaysCallable test }
    ensures first { IsFirstTrue (λ l b. F.post test l b) literals.now result }
    ensures tested { (passes : Lit → Bool) → ((l : Lit) (b : Bool) → F.post test l b → b ≡ passes l) →
        result ≡ find passes literals.now }
{
    find_stored(literals, &test)
}

fn find_own<F: Fn(Literal) -> bool>(literal: Option<Literal>, test: &F) -> Option<Literal>
    requires { F.IsAlwaysCallable test.now }
    ensures { IsFirstTrue (λ l b. F.post test.now l b) (option_to_list literal) result }
{
    match literal {
        Some(literal) if test(literal) => Some(literal),
        _ => None,
    }
}

fn find_stored<F: Fn(Literal) -> bool>(literals: &[Literal], test: &F) -> Option<Literal>
    requires { F.IsAlwaysCallable test.now }
    ensures { IsFirstTrue (λ l b. F.post test.now l b) literals.now result }
{
    for literal in literals {
        if test(*literal) {
            return Some(*literal);
        }
    }
    None
}

fn find_candidate<F: Fn(Literal) -> bool>(candidates: &[VariableId], test: &F) -> Option<Literal>
    requires { F.IsAlwaysCallable test.now }
    ensures { IsFirstTrue (λ l b. F.post test.now l b) (map Pos candidates.now) result }
{
    for candidate in candidates {
        let literal = positive(*candidate);
        if test(literal) {
            return Some(literal);
        }
    }
    None
}

fn find_in_lists<F: Fn(Literal) -> bool, A: Allocator>(
    lists: &[Vec<VariableId, A>],
    test: &F,
) -> Option<Literal>
    requires { F.IsAlwaysCallable test.now }
    ensures { IsFirstTrue (λ l b. F.post test.now l b) (flat_map (map Pos) (map (λ l. l.items) lists.now)) result }
{
    for list in lists {
        if let Some(literal) = find_candidate(list, test) {
            return Some(literal);
        }
    }
    None
}

fn push_candidates<A: Allocator>(
    literals: &mut Vec<Literal, A>,
    candidates: &[VariableId],
) -> Result<(), StoreError>
    ensures ok { OnOk result (literals.new.items ≡ literals.old.items ++ map Pos candidates.now) }
    ensures memory { IfErr result (λ e. e ≡ OutOfMemory) }
{
    for candidate in candidates {
        literals.push(positive(*candidate))?;
    }
    Ok(())
}

fn push_lists<A: Allocator>(
    literals: &mut Vec<Literal, A>,
    lists: &[Vec<VariableId, A>],
) -> Result<(), StoreError>
    ensures ok { OnOk result (literals.new.items ≡
        literals.old.items ++ flat_map (map Pos) (map (λ l. l.items) lists.now)) }
    ensures memory { IfErr result (λ e. e ≡ OutOfMemory) }
{
    for list in lists {
        push_candidates(literals, list)?;
    }
    Ok(())
}
