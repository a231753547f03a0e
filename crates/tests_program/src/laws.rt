//! Each law is called: it takes no time and no memory.

use isolation::{confinement, examples, noninterference, runs};

#[test]
fn laws_of_sources(_rt: HostRuntime) {
    resolved::laws::values_keep_their_types();
    resolved::laws::programs_are_labelled_or_refused();
    resolved::laws::gathered_constraints_decide();
    resolved::laws::parts_are_those_of_the_rules();
    resolved::laws::precise_programs_are_accepted();
    runs::exits_are_possible();
    runs::calls_give_their_value();
    runs::sent_stays_sent();
    runs::more_fuel_goes_on();
    confinement::statements_are_confined();
    confinement::possible_exits_are_unread();
}

#[test]
fn laws_of_isolation(_rt: HostRuntime) {
    noninterference::two_runs_agree();
    noninterference::labelled_programs_are_isolated();
    noninterference::labelled_programs_stay_isolated();
    examples::a_label_decides();
    examples::lists_may_differ_in_length();
    acceptance::laws::one_verdict();
    acceptance::laws::resolved_programs_have_names();
    acceptance::laws::accepted_programs_are_isolated();
}

#[test]
fn laws_of_compiling(_rt: HostRuntime) {
    types::laws::found_programs_are_well_formed();
    types::laws::item_names_are_proper_and_different();
    types::laws::item_names_are_utf8();
    types::laws::hierarchies_and_channel_labels_are_kept();
    types::laws::numbers_read_as_names();
    layout::laws::layout_keeps_runs();
    parser::spelling_laws();
    parser::one_reading();
}

#[test]
fn laws_of_the_program(_rt: HostRuntime) {
    flowc::laws::sessions_mean_the_source();
    flowc::laws::sessions_are_isolated();
    flowc::laws::silent_modules_show_less();
    flowc::laws::runs_are_isolated();
    flowc::laws::runs_end_as_the_source();
    command_line::laws::steps_are_as_written();
}
