ghost use Rattle.std.specs.Prelude.{◌≡◌, [], ◌∷◌, IfOk, IfErr};
ghost use Rattle.thompson_nfa.specs.Configs.{no_options, changed_by};
ghost use Rattle.thompson_nfa.specs.Compilations.{IsCompiled};
ghost use Rattle.thompson_nfa.specs.RefusedTrees.{RejectsTrees};

use crate::compiling::Shared;
use crate::config::Config;
use crate::trees::compile_trees;
use hir_core::Hir;
use nfa_core::{BuildError, Builder, NFA};
use std::alloc::Global;
use std::marker::Model;
use std::slice;

/// Compiles trees to byte automata. A contract sees the options that were set. It relates each automaton, and each error, to
/// these options and the trees alone, whatever was compiled or rejected before. It is a relation and not a function: it doesn't
/// say how states are numbered, or which of them are shared.
///
/// As `regex_automata::nfa::thompson::Compiler`.
#[derive(Drop)]
pub struct Compiler {
    alloc: Global,
    config: Config,
    builder: Builder,
    shared: Shared,
}

impl Model for Compiler {
    ghost use Rattle.thompson_nfa.specs.Configs.{Options};

    ghost Value = { Options };

    ghost view = { λ c. c.config };
}

impl Compiler {
    /// A compiler with no option set.
    pub fn new(alloc: Global) -> Compiler
        ensures { result ≡ no_options }
    {
        Compiler {
            alloc,
            config: Config::new(),
            builder: Builder::new(alloc),
            shared: Shared::new(alloc),
        }
    }

    /// Sets each option that the configuration has set, and keeps the others.
    pub fn configure(&mut self, config: Config) -> &mut Compiler
        ensures same { result.ghost_name ≡ self.entry.ghost_name }
        ensures value { result.now ≡ changed_by self.old config }
    {
        self.config = self.config.overwrite(config);
        self
    }

    /// The automaton of one tree, as pattern 0. See [`build_many_from_hir`](Compiler::build_many_from_hir).
    pub fn build_from_hir(&mut self, expr: &Hir) -> Result<NFA, BuildError>
        ensures options { self.new ≡ self.old }
        ensures compiled { IfOk result (λ n. IsCompiled self.old (expr.now ∷ []) n) }
        ensures refused { IfErr result (λ e. RejectsTrees self.old (expr.now ∷ []) e) }
    {
        let nfa = self.build_many_from_hir(slice::from_ref(expr))?;
        Ok(nfa)
    }

    /// The automaton of these trees, each as a pattern of its own, numbered from 0.
    ///
    /// The call returns an error in each of these cases:
    /// - Groups are asked for in an automaton that reads in reverse, or they break a rule.
    /// - There are more patterns or states than can be numbered.
    /// - The states take more bytes than they may.
    /// - An allocation fails.
    ///
    /// If no states may be shared, the size limit is exact to the byte:
    /// [`limits_are_exact_where_no_states_are_shared`](crate::laws::room_laws::limits_are_exact_where_no_states_are_shared).
    pub fn build_many_from_hir(&mut self, exprs: &[Hir]) -> Result<NFA, BuildError>
        ensures options { self.new ≡ self.old }
        ensures compiled { IfOk result (λ n. IsCompiled self.old exprs.now n) }
        ensures refused { IfErr result (λ e. RejectsTrees self.old exprs.now e) }
    {
        let nfa = compile_trees(
            &mut self.builder,
            self.alloc,
            &mut self.shared,
            &self.config,
            exprs,
        )?;
        Ok(nfa)
    }
}
