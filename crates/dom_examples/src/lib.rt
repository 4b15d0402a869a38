//! Worked examples of the line protocol, from bytes to bytes, which the prover computes: each function says of one subject
//! that the definitions answer its scripts as the examples have it. There is no other code here.
#![tactic(auto)]

ghost use Rattle.std.specs.Prelude.{◌≡◌, IsTrue};
ghost use Rattle.dom_base.specs.declared.Owner.TheVariants.{Page};
ghost use Rattle.dom_base.specs.Owners.{component_made};
ghost use Rattle.dom_examples.specs.Example.{Computes, Singles, page_answers, answers_for};
ghost use Rattle.dom_examples.specs.TreeExamples.{append_and_remove, first_refusals, closed_tree, validity_order, split_surrogates, documents_and_attaching};
ghost use Rattle.dom_examples.specs.ObserverExamples.{last_child_again, fragments_into_document, replace_by_next_sibling, transient_registrations};
ghost use Rattle.dom_examples.specs.ObserverExamples.{text_replaced, old_data_and_filter};
ghost use Rattle.dom_examples.specs.RangeExamples.{extract_insert_delete, normalize_texts, range_in_one_text, extract_behind_start, extract_both_sides};
ghost use Rattle.dom_examples.specs.CursorExamples.{reference_removed, walkers_and_filters};
ghost use Rattle.dom_examples.specs.SelectorExamples.{query_and_match, query_in_closed_tree};
ghost use Rattle.dom_examples.specs.EventExamples.{slotted_child, slots_by_name, events_from_inside, host_slotted_into_host, listener_words, stops_and_labels};
ghost use Rattle.dom_examples.specs.ProtocolExamples.{refusals_and_busy_turns, with_component, without_component, first_family, second_family};
ghost use Rattle.dom_examples.specs.LineExamples.{ownerless, malformed, unknown, longest, too_long, too_long_letters, too_long_words};
ghost use Rattle.dom_examples.specs.SaidExamples.{SaysEach, commands_said, optional_words_said};
ghost use Rattle.dom_examples.specs.PathExamples.{paths_are_right};
ghost use Rattle.dom_examples.specs.NestingExamples.{component_in_component, slots_of_two_trees, adopted_with_inner_trees, detached_inner_host};

/// Nodes made, placed, moved and removed, and what is refused.
pub fn trees()
    ensures append_and_remove { Computes append_and_remove }
    ensures first_refusals { Computes first_refusals }
    ensures closed_tree { Computes closed_tree }
    ensures validity_order { Computes validity_order }
    ensures split_surrogates { Computes split_surrogates }
    ensures documents_and_attaching { Computes documents_and_attaching }
{}

/// What mutation observers are told.
pub fn observers()
    ensures last_child_again { Computes last_child_again }
    ensures fragments_into_document { Computes fragments_into_document }
    ensures replace_by_next_sibling { Computes replace_by_next_sibling }
    ensures transient_registrations { Computes transient_registrations }
    ensures text_replaced { Computes text_replaced }
    ensures old_data_and_filter { Computes old_data_and_filter }
{}

/// Live ranges under changes, and what is taken out of them.
pub fn ranges()
    ensures extract_insert_delete { Computes extract_insert_delete }
    ensures normalize_texts { Computes normalize_texts }
    ensures range_in_one_text { Computes range_in_one_text }
    ensures extract_behind_start { Computes extract_behind_start }
    ensures extract_both_sides { Computes extract_both_sides }
{}

/// Node iterators and tree walkers.
pub fn cursors()
    ensures reference_removed { Computes reference_removed }
    ensures walkers_and_filters { Computes walkers_and_filters }
{}

/// Queries and matches.
pub fn selectors()
    ensures query_and_match { Computes query_and_match }
    ensures query_in_closed_tree { Computes query_in_closed_tree }
{}

/// Slots, listeners, and events that are retargeted.
pub fn events()
    ensures slotted_child { Computes slotted_child }
    ensures slots_by_name { Computes slots_by_name }
    ensures events_from_inside { Computes events_from_inside }
    ensures host_slotted_into_host { Computes host_slotted_into_host }
    ensures listener_words { Computes listener_words }
    ensures stops_and_labels { Computes stops_and_labels }
{}

/// Components inside components.
pub fn nesting()
    ensures component_in_component { Computes component_in_component }
    ensures slots_of_two_trees { Computes slots_of_two_trees }
    ensures adopted_with_inner_trees { Computes adopted_with_inner_trees }
    ensures detached_inner_host { Computes detached_inner_host }
{}

/// Owners, turns, refusals by spelling, and pairs of worlds.
pub fn protocol()
    ensures refusals_and_busy_turns { Computes refusals_and_busy_turns }
    ensures with_component { Computes with_component }
    ensures without_component { Computes without_component }
    ensures first_family { Computes first_family }
    ensures second_family { Computes second_family }
{}

/// Lines without an owner, outside the grammar, or with an unknown name.
pub fn lines()
    ensures ownerless { Singles ownerless }
    ensures malformed { Singles malformed }
    ensures unknown { Singles unknown }
    ensures longest { Singles longest }
    ensures too_long { Singles too_long }
    ensures too_long_letters { Singles too_long_letters }
    ensures too_long_words { Singles too_long_words }
{}

/// Lines of each form, with and without the words that may be left out, and the command that each says.
pub fn said()
    ensures commands { SaysEach commands_said }
    ensures optional_words { SaysEach optional_words_said }
{}

/// Two worlds with equal lines of the page, one with a component and one without: the page is answered alike. Two worlds
/// in which a component has equal lines, and another one has not: it is answered alike.
pub fn pairs()
    ensures page { page_answers with_component ≡ page_answers without_component }
    ensures component { answers_for (component_made Page 0) first_family ≡ answers_for (component_made Page 0) second_family }
{}

/// On the worlds that scripts leave, the path of each node follows event parents.
#[tactic(auto, unfolding(dom_text::specs::Decode::keyword_of, dom_model::specs::Names::max_depth))]
pub fn paths()
    ensures slotted_child { IsTrue (paths_are_right slotted_child) }
    ensures slots_by_name { IsTrue (paths_are_right slots_by_name) }
    ensures events_from_inside { IsTrue (paths_are_right events_from_inside) }
    ensures host_slotted_into_host { IsTrue (paths_are_right host_slotted_into_host) }
    ensures with_component { IsTrue (paths_are_right with_component) }
    ensures second_family { IsTrue (paths_are_right second_family) }
    ensures slots_of_two_trees { IsTrue (paths_are_right slots_of_two_trees) }
{}
