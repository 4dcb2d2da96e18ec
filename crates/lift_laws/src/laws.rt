//! Laws of the lift, which a plan's maker cites.
ghost use Rattle.lift_laws.specs.Laws.{AggregatesLift, AtomConversionsLift, BindingLifts, BooleansLift, BranchCarries, CallsLift, CastableLifts, CheckAdds, ChecksAnswer, ChoiceLifts, ConcatsLift, ConditionBindsLift, ConnectivesLift, ConstantsLift, ContentsLift, CostIsWork, CountLifts, DataLifts, DemandsAreSmall, DistinctsLift, EmptyLifts, EmptyTypesLift, ExactlyOneLifts, ExceptsLift, ExistsLifts, FailuresAreReached, FailuresLift, GeneralsLift, IndicesLift, InsertsLift, InstancesLift, IntersectsLift, ItemConversionsLift, ItemRulesLift, JoinsLift, KindConversionsLift, LiteralLifts, LoopBindsLift, LoopCarries, LoopLifts, NoPartsLift, NodeConversionsLift, NoneCarried, NothingLifts, OneMoreCarried, OneOrMoreLifts, OperatorMakes, PairRulesLift, PartsLift, PartsOfTextsLift, PathsLift, PlansAnswer, RangesLift, RemovesLift, RestsLift, ReverseLifts, RulesAreFair, SequenceLifts, SlicesLift, SortedLifts, StepMakes, StepsLift, StrictCastsLift, SumsOrLift, TextPairsLift, TextRulesLift, TreatsLift, TreesAreKnown, TriosLift, TuplesLift, UnionsLift, ValuesWhereNothingFails, VariableBindsLift, VariableLifts, WorldExists, ZeroOrOneLifts};

/// Where nothing fails in any iteration, each has a value.
#[tactic(auto, using(crate::proofs::Cases::values_where_nothing_fails))]
pub fn values_where_nothing_fails()
    ensures { ValuesWhereNothingFails }
{}

/// A literal is lifted by its cell at position 1 of the loop.
#[tactic(auto, using(crate::proofs::Cases::literal_lifts))]
pub fn literal_lifts()
    ensures { LiteralLifts }
{}

/// Nothing is lifted by a table without rows.
#[tactic(auto, using(crate::proofs::Cases::nothing_lifts))]
pub fn nothing_lifts()
    ensures { NothingLifts }
{}

/// A variable is lifted by its table.
#[tactic(auto, using(crate::proofs::Cases::variable_lifts))]
pub fn variable_lifts()
    ensures { VariableLifts }
{}

/// Two parts one after the other are lifted by their tables with new positions.
#[tactic(auto, using(crate::proofs::Cases::sequence_lifts))]
pub fn sequence_lifts()
    ensures { SequenceLifts }
{}

/// A binding is lifted by its body, with the bound part's table for the variable.
#[tactic(auto, using(crate::proofs::Cases::binding_lifts))]
pub fn binding_lifts()
    ensures { BindingLifts }
{}

/// A loop is lifted by its body in the loop of its turns, and by the way back.
pub fn loop_lifts()
    ensures { LoopLifts }
{}

/// A choice is lifted by its branches in the loops of the iterations that choose them.
pub fn choice_lifts()
    ensures { ChoiceLifts }
{}

/// No parts are lifted by no tables.
#[tactic(auto, using(crate::proofs::Cases::no_parts_lift))]
pub fn no_parts_lift()
    ensures { NoPartsLift }
{}

/// The parts of a call are lifted one after the other.
pub fn parts_lift()
    ensures { PartsLift }
{}

/// A call is lifted by its parts, and then by its own rule.
pub fn calls_lift()
    ensures { CallsLift }
{}

/// The failures of all iterations at once are those of the reached evaluations.
pub fn failures_are_reached()
    ensures { FailuresAreReached }
{}

/// The cost of one iteration is the work of the reached evaluations.
pub fn cost_is_work()
    ensures { CostIsWork }
{}

/// The first check that has a row answers the least failure, and the root's table is the answer where none has one.
pub fn checks_answer()
    ensures { ChecksAnswer }
{}

/// Behind an answer no operator has more rows than the demand.
pub fn demands_are_small()
    ensures { DemandsAreSmall }
{}

/// An operator that is handed to a valid plan is there with its table, and nothing else changes.
pub fn operator_makes()
    ensures { OperatorMakes }
{}

/// No variable is carried by nothing.
pub fn none_carried()
    ensures { NoneCarried }
{}

/// One more variable is carried behind the others.
pub fn one_more_carried()
    ensures { OneMoreCarried }
{}

/// A loop carries the free variables of its body but its own.
pub fn loop_carries()
    ensures { LoopCarries }
{}

/// A branch carries its free variables.
pub fn branch_carries()
    ensures { BranchCarries }
{}

/// Under the identity of a known item's cell stands its tree.
pub fn trees_are_known()
    ensures { TreesAreKnown }
{}

/// Each rule gives the same over cells as over items.
pub fn rules_are_fair()
    ensures { RulesAreFair }
{}

/// A failure is lifted by a check of its loop.
pub fn failures_lift()
    ensures { FailuresLift }
{}

/// `true` and `false` are lifted by their literals.
pub fn constants_lift()
    ensures { ConstantsLift }
{}

/// `exists` is lifted by a boolean for each iteration.
pub fn exists_lifts()
    ensures { ExistsLifts }
{}

/// `empty` is lifted by a boolean for each iteration.
pub fn empty_lifts()
    ensures { EmptyLifts }
{}

/// `zero-or-one` is lifted by a check and its argument's table.
pub fn zero_or_one_lifts()
    ensures { ZeroOrOneLifts }
{}

/// `one-or-more` is lifted by a check and its argument's table.
pub fn one_or_more_lifts()
    ensures { OneOrMoreLifts }
{}

/// `exactly-one` is lifted by a check and its argument's table.
pub fn exactly_one_lifts()
    ensures { ExactlyOneLifts }
{}

/// A check that is added changes no table.
pub fn check_adds()
    ensures { CheckAdds }
{}

/// `data` is lifted by a map over the items.
pub fn data_lifts()
    ensures { DataLifts }
{}

/// `count` is lifted by the counted iterations beside the loop, and 0 in the others.
pub fn count_lifts()
    ensures { CountLifts }
{}

/// Signs, casts, roots and documents are lifted by a map over the items and a check for each code.
pub fn item_rules_lift()
    ensures { ItemRulesLift }
{}

/// `castable as` is lifted by a boolean for each iteration.
pub fn castable_lifts()
    ensures { CastableLifts }
{}

/// Texts, their lengths and forms, and names of nodes are lifted by a map over the items and a check.
pub fn text_rules_lift()
    ensures { TextRulesLift }
{}

/// Arithmetic, and comparisons of values, of nodes and of texts, are lifted by a map over both items beside each other and a check for each code.
pub fn pair_rules_lift()
    ensures { PairRulesLift }
{}

/// `boolean` and `not` are lifted by a boolean for each iteration and a check.
pub fn booleans_lift()
    ensures { BooleansLift }
{}

/// General comparisons are lifted by a boolean for each iteration and a check for each code.
pub fn generals_lift()
    ensures { GeneralsLift }
{}

/// `or` and `and` are lifted by what they give of both booleans.
pub fn connectives_lift()
    ensures { ConnectivesLift }
{}

/// Functions of two texts are lifted by both operands with the empty text where they are absent.
pub fn text_pairs_lift()
    ensures { TextPairsLift }
{}

/// A step is lifted by the step from all nodes of all iterations at once, positions by document order, and a check.
pub fn steps_lift()
    ensures { StepsLift }
{}

/// A union is lifted by both operands' nodes, each once, by document order, and a check.
pub fn unions_lift()
    ensures { UnionsLift }
{}

/// The result of a path is lifted by its nodes, each once, by document order, or its other items, and a check.
pub fn paths_lift()
    ensures { PathsLift }
{}

/// `reverse` is lifted by its argument's items with new positions, from the last one on.
pub fn reverse_lifts()
    ensures { ReverseLifts }
{}

/// `concat` is lifted by the texts of its arguments, from the last one on, and a check.
pub fn concats_lift()
    ensures { ConcatsLift }
{}

/// `sum`, `min` and `max` are lifted by what is given of each iteration's items in order, and a check for each code.
pub fn aggregates_lift()
    ensures { AggregatesLift }
{}

/// `instance of` a type is lifted by a boolean for each iteration.
pub fn instances_lift()
    ensures { InstancesLift }
{}

/// `treat as` a type is lifted by a check and its argument's table.
pub fn treats_lift()
    ensures { TreatsLift }
{}

/// A step that is handed to a plan is the one step that is added.
pub fn step_makes()
    ensures { StepMakes }
{}

/// A conversion to a type of any items is lifted by a check and its argument's table.
pub fn item_conversions_lift()
    ensures { ItemConversionsLift }
{}

/// A conversion to a type of any atomic values is lifted by a map over the items and a check.
pub fn atom_conversions_lift()
    ensures { AtomConversionsLift }
{}

/// `to` is lifted by a run of integers for each iteration, and checks of both bounds.
pub fn ranges_lift()
    ensures { RangesLift }
{}

/// `sum` of two arguments is lifted by the total, or by the second argument where there is nothing to sum, and a check for each code.
pub fn sums_or_lift()
    ensures { SumsOrLift }
{}

/// `substring` of a text and a start is lifted by a map over both beside each other, and checks of both.
pub fn parts_of_texts_lift()
    ensures { PartsOfTextsLift }
{}

/// `substring` with a length and `translate` are lifted by a map over three items beside each other, and checks of all three.
pub fn trios_lift()
    ensures { TriosLift }
{}

/// `string-join` is lifted by the joined texts of the iterations that no check names, and a check.
pub fn joins_lift()
    ensures { JoinsLift }
{}

/// The text of content is lifted by the joined texts of all iterations, with blanks between.
pub fn contents_lift()
    ensures { ContentsLift }
{}

/// A conversion to one kind of atomic values is lifted by a cast of each, and checks of their number, of their kinds and of the casts.
pub fn kind_conversions_lift()
    ensures { KindConversionsLift }
{}

/// A conversion to a type of nodes is lifted by a check and its argument's table.
pub fn node_conversions_lift()
    ensures { NodeConversionsLift }
{}

/// Tests of the type of no items and conversions to it are lifted by whether the argument has an item.
pub fn empty_types_lift()
    ensures { EmptyTypesLift }
{}

/// A cast of exactly one item is lifted by a map over the items, and checks of their number and of the casts.
pub fn strict_casts_lift()
    ensures { StrictCastsLift }
{}

/// A world exists for every expression whose sites are its nodes' numbers and whose literals are atomic values.
#[tactic(auto, using(crate::proofs::Existing::world_for))]
pub fn world_exists()
    ensures { WorldExists }
{}

/// A plan that lifts a lawful Core answers its first failure or the cells of its value, within its work.
#[tactic(auto, using(crate::proofs::Answered::plans_answer))]
pub fn plans_answer()
    ensures { PlansAnswer }
{}

/// The tuples of a sorted loop are lifted by their keys, their body, and a row for each.
pub fn tuples_lift()
    ensures { TuplesLift }
{}

/// A loop among the binds of a sorted loop is lifted by its turns, and the way back of the tuples inside.
pub fn loop_binds_lift()
    ensures { LoopBindsLift }
{}

/// A variable among the binds of a sorted loop is lifted by what follows, with the bound part's table for it.
pub fn variable_binds_lift()
    ensures { VariableBindsLift }
{}

/// A condition among the binds of a sorted loop is lifted by what follows, in the iterations that it chooses.
pub fn condition_binds_lift()
    ensures { ConditionBindsLift }
{}

/// A sorted loop is lifted by its binds, a check of its keys, and its bodies in the order of the tuples.
pub fn sorted_lifts()
    ensures { SortedLifts }
{}

/// `intersect` is lifted by the nodes of the first operand that aren't among those that the second hasn't, each once, by document order, and a check.
pub fn intersects_lift()
    ensures { IntersectsLift }
{}

/// `except` is lifted by the nodes of the first operand that the second hasn't, each once, by document order, and a check.
pub fn excepts_lift()
    ensures { ExceptsLift }
{}

/// `remove` is lifted by a comparison of the places of items with the one that is asked for, and checks of that one.
pub fn removes_lift()
    ensures { RemovesLift }
{}

/// `subsequence` of a start is lifted by a comparison of the places of items with it, and checks of it.
pub fn rests_lift()
    ensures { RestsLift }
{}

/// `index-of` is lifted by a comparison of items with the one that is asked for, and a check of that one.
pub fn indices_lift()
    ensures { IndicesLift }
{}

/// `insert-before` is lifted by the items before a place, others and the items from the place on, one after the other, and checks of the place.
pub fn inserts_lift()
    ensures { InsertsLift }
{}

/// `subsequence` of a start and a length is lifted by the items from the start on, of which as many stay as `substring` leaves characters of a text with one for each item, and checks of both.
pub fn slices_lift()
    ensures { SlicesLift }
{}

/// `distinct-values` is lifted by the first of equal texts and of other equal values among the sorted rows, in the order of their positions.
pub fn distincts_lift()
    ensures { DistinctsLift }
{}
