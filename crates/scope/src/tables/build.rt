// What a scope tree promises of its body.
ghost use Rattle.std.specs.Prelude.{◌≡◌, ℕ, ◌≤◌, length};
ghost use Rattle.reach.specs.Examples.{ExamplesHold};
ghost use Rattle.reach.specs.Held.{shape_of};
ghost use Rattle.reach.specs.Law.{AllRecorded, BlocksHoldNone, EntriesIn, MetOnce, OnlyExpressions, TreeOfScopes};
ghost use Rattle.reach.specs.Named.{Named};
ghost use Rattle.reach.specs.Visit.{built};
ghost use Rattle.reach.specs.Words.{ReachLaw, StaysBelow};
ghost use Rattle.scope.specs.Queries.{all_entries};
ghost use Rattle.scope.specs.Told.{told};
ghost use Rattle.sheet.specs.Held.{bindings_of, nodes_of};

use crate::tables::ExprScopes;
use builder::tables::Tables;
use sheet::body::Body;

impl ExprScopes {
    // The scope tree of a body: the tables that its visit fills.
    pub fn new_body(body: &Body) -> ExprScopes
        ensures is_the_tree_of_the_visit { built (shape_of body.now) (length (nodes_of body.now)) ≡ told result }
        ensures fits_its_tables { (length (told result).scopes ≤ 1023) × (length (told result).entries ≤ 512) }
        ensures records_every_expression { AllRecorded (shape_of body.now) (length (nodes_of body.now)) (told result) }
        ensures records_nothing_else { OnlyExpressions (shape_of body.now) (told result) }
        ensures is_a_tree { TreeOfScopes (told result) }
        ensures gives_blocks_no_entry { BlocksHoldNone (told result) }
        ensures sees_just_what_reaches { ReachLaw (shape_of body.now) (length (nodes_of body.now)) (told result) }
        ensures sees_no_name_beyond_what_brings_it { StaysBelow }
        ensures meets_one_list_from_each_scope { MetOnce }
        ensures holds_just_what_reaches { EntriesIn (shape_of body.now) (length (nodes_of body.now)) (told result) }
        ensures names_each_entry { Named (bindings_of body.now) (all_entries result) }
        ensures is_defined_as_worked_out { ExamplesHold }
    {
        let tables = Tables::of_body(body);
        ExprScopes { tables }
    }
}
