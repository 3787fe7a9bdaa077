//! What a search of signatures is told of the edges.
ghost use Rattle.std.specs.Prelude.{◌≡◌, ℕ, Bool, [], length, IfOk};
ghost use Rattle.gl_event.specs.declared.events.Segment.{Segment};
ghost use Rattle.gl_filters.specs.Picked.{edges_of_table};
ghost use Rattle.gl_filters.specs.declared.query.Mode.{Mode};
ghost use Rattle.gl_index.specs.Indexes.{AreChainedKept, AreClosers};
ghost use Rattle.gl_index.specs.declared.sides.Side.TheVariants.{Leader};
ghost use Rattle.gl_sought.specs.OffCycles.{KeepsCycles};
ghost use Rattle.gl_grounds.specs.Classes.{classes_of};
ghost use Rattle.gl_grounds.specs.Grounds.{AreGrounds};
ghost use Rattle.gl_grounds.specs.Models.{AreModels, IsNextClass};
ghost use Rattle.gl_grounds.specs.Passing.{ArePassages};
ghost use Rattle.gl_grounds.specs.Running.{AreRunners};
ghost use Rattle.gl_grounds.specs.Spanning.{AreReached};

use crate::classes::{classes_of, next_classes};
use crate::models::models_of;
use crate::passages::Passages;
use crate::runners::{Runner, runners_of};
use crate::spans::Spans;
use gl_edges::{Edge, EdgeList, Sample};
use gl_event::Memory;
use gl_index::{Chain, Closers, Side};
use std::alloc::Global;

/// What a search is told of the edges.
pub struct Grounds {
    // the class of each
    pub classes: Vec<usize>,
    // those that may be in a cycle
    pub kept: Vec<bool>,
    // and of those that are alike one
    pub models: Vec<bool>,
    // for each class the next one that has a model
    pub next: Vec<usize>,
    // and which thread runs it, where one alone does
    pub runners: Vec<Runner>,
    // and which classes lead on to which
    pub passages: Passages,
    // the models by the locks that they hold, and by those that they want too
    pub holders: Chain,
    pub closers: Closers,
    // and their spans, by their classes
    pub begins: Spans,
}

// Written out, so that it is proved once: a derived drop is proved again wherever one is let go.
impl Drop for Grounds {
    fn drop(self) {
        let Grounds {
            classes,
            kept,
            models,
            next,
            runners,
            passages,
            holders,
            closers,
            begins,
        } = self;
    }
}

// The class of each edge, and which are the models.
#[derive(Drop)]
struct Classed {
    classes: Vec<usize>,
    models: Vec<bool>,
}

// What is told of classes: the next one that has a model, who runs each, and which lead on to which.
#[derive(Drop)]
struct Relations {
    next: Vec<usize>,
    runners: Vec<Runner>,
    passages: Passages,
}

// Where models are looked up: by the locks that they hold, by those that they want too, and their spans.
#[derive(Drop)]
struct LookUps {
    holders: Chain,
    closers: Closers,
    begins: Spans,
}

impl Classed {
    // Those of these edges, of which some are kept.
    fn of(alloc: Global, edges: &EdgeList, kept: &[bool]) -> Result<Classed, Memory>
        requires { length kept.now ≡ length edges.now }
        ensures classes { IfOk result (λ m. m.classes.items ≡ classes_of edges.now) }
        ensures long { IfOk result (λ m. length m.models.items ≡ length edges.now) }
        ensures models { IfOk result
            (λ m. AreModels (edges_of_table edges.now) m.classes.items kept.now m.models.items) }
    {
        let classes = classes_of(alloc, edges.entries())?;
        let models = models_of(alloc, edges, &classes, kept)?;
        Ok(Classed { classes, models })
    }
}

impl Relations {
    // Those of the classes of these edges.
    fn of(
        alloc: Global,
        table: &[(Edge, Sample)],
        kept: &[bool],
        classes: &[usize],
        models: &[bool],
    ) -> Result<Relations, Memory>
        requires kept { length kept.now ≡ length table.now }
        requires classes { length classes.now ≡ length table.now }
        requires models { length models.now ≡ length table.now }
        ensures next { IfOk result
            (λ r. IsNextClass (length classes.now) classes.now models.now r.next.items) }
        ensures runners { IfOk result
            (λ r. AreRunners (edges_of_table table.now) classes.now kept.now r.runners.items) }
        ensures passages { IfOk result
            (λ r. ArePassages (edges_of_table table.now) classes.now models.now r.passages) }
    {
        let next = next_classes(alloc, classes, models)?;
        let runners = runners_of(alloc, table, classes, kept)?;
        let passages = Passages::of(alloc, table, classes, models)?;
        Ok(Relations {
            next,
            runners,
            passages,
        })
    }
}

impl LookUps {
    // Those of the models of these edges.
    fn of(
        alloc: Global,
        table: &[(Edge, Sample)],
        classes: &[usize],
        models: &[bool],
    ) -> Result<LookUps, Memory>
        requires classes { length classes.now ≡ length table.now }
        requires models { length models.now ≡ length table.now }
        ensures holders { IfOk result
            (λ x. AreChainedKept Leader (edges_of_table table.now) models.now 0 x.holders) }
        ensures closers { IfOk result
            (λ x. AreClosers (edges_of_table table.now) models.now 0 x.closers) }
        ensures begins { IfOk result
            (λ x. (mode : Mode) (len : ℕ)
            → AreReached mode (edges_of_table table.now) classes.now models.now len [] x.begins) }
    {
        let holders = Chain::of_kept(alloc, table, Side::Leader, models)?;
        let closers = Closers::of(alloc, table, models)?;
        let begins = Spans::of_models(alloc, table, classes, models)?;
        Ok(LookUps {
            holders,
            closers,
            begins,
        })
    }
}

impl Grounds {
    /// What there is to tell where these edges are kept.
    pub fn of(alloc: Global, edges: &EdgeList, kept: Vec<bool>) -> Result<Grounds, Memory>
        requires { length kept.items ≡ length edges.now }
        ensures { IfOk result
            (λ grounds. (before : Segment → Segment → Bool) (mode : Mode) (len : ℕ)
            → KeepsCycles before mode len (edges_of_table edges.now) kept.items
            → AreGrounds before mode len edges.now grounds) }
    {
        let table = edges.entries();
        let classed = Classed::of(alloc, edges, &kept)?;
        let relations = Relations::of(alloc, table, &kept, &classed.classes, &classed.models)?;
        let look_ups = LookUps::of(alloc, table, &classed.classes, &classed.models)?;
        Ok(Grounds::with(kept, classed, relations, look_ups))
    }

    // All of these together.
    fn with(kept: Vec<bool>, classed: Classed, relations: Relations, look_ups: LookUps) -> Grounds
        ensures { result ≡ record {
          classes = classed.classes;
          kept = kept;
          models = classed.models;
          next = relations.next;
          runners = relations.runners;
          passages = relations.passages;
          holders = look_ups.holders;
          closers = look_ups.closers;
          begins = look_ups.begins;
        } }
    {
        let Classed { classes, models } = classed;
        let Relations {
            next,
            runners,
            passages,
        } = relations;
        let LookUps {
            holders,
            closers,
            begins,
        } = look_ups;
        Grounds {
            classes,
            kept,
            models,
            next,
            runners,
            passages,
            holders,
            closers,
            begins,
        }
    }
}
