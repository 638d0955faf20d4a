//! Which tables are valid, in which order rows stand, and what windows leave, by examples. The bodies are empty; the
//! contracts are the examples.

ghost use Rattle.std.specs.Prelude.{◌≡◌, [], ◌∷◌, Some, None};
ghost use Rattle.rel_model.specs.Examples as example;
ghost use Rattle.rel_model.specs.PageExamples as page;
ghost use Rattle.rel_model.specs.Picked.{numbers_of};
ghost use Rattle.rel_model.specs.Ordered.{ordered};
ghost use Rattle.rel_model.specs.Interval.{interval_of};
ghost use Rattle.rel_model.specs.Tables.{AreValidTables};

/// Tables that are valid for the examples' catalog.
pub fn these_tables_are_valid()
    ensures no_rows { AreValidTables example.catalog example.no_rows }
    ensures linked { AreValidTables example.catalog example.linked }
    ensures characters { AreValidTables example.catalog example.two_characters }
    ensures nulls { AreValidTables example.catalog example.nulls_in_key }
    ensures greatest { AreValidTables example.catalog example.greatest_counts }
{}

/// Tables of which a cell, a key or a link isn't as the catalog asks.
pub fn these_rows_are_not_valid()
    ensures null_cell { ¬ (AreValidTables example.catalog example.null_where_none_may_be) }
    ensures long_text { ¬ (AreValidTables example.catalog example.three_characters) }
    ensures no_text { ¬ (AreValidTables example.catalog example.no_text) }
    ensures no_case { ¬ (AreValidTables example.catalog example.case_past_the_last) }
    ensures other_kind { ¬ (AreValidTables example.catalog example.truth_as_integer) }
    ensures equal_keys { ¬ (AreValidTables example.catalog example.equal_keys) }
    ensures no_target { ¬ (AreValidTables example.catalog example.link_to_no_row) }
{}

/// Tables of which a number, a counter or the list of lists isn't as the catalog asks.
pub fn these_counts_are_not_valid()
    ensures fall { ¬ (AreValidTables example.catalog example.numbers_that_fall) }
    ensures taken { ¬ (AreValidTables example.catalog example.next_number_taken) }
    ensures large { ¬ (AreValidTables example.catalog example.next_number_past_the_greatest) }
    ensures below { ¬ (AreValidTables example.catalog example.counter_below_0) }
    ensures past { ¬ (AreValidTables example.catalog example.counter_past_the_greatest) }
    ensures missing { ¬ (AreValidTables example.catalog example.no_homes) }
{}

/// Rows in an order: nulls stand last, and first where it descends; rows that stand alike go by number.
#[tactic(auto, unfolding(crate::specs::Ordered::cell_order))]
pub fn rows_stand_in_this_order()
    ensures natural { numbers_of (ordered [] page.rows) ≡ 1 ∷ 2 ∷ 3 ∷ 5 ∷ [] }
    ensures up { numbers_of (ordered page.first_up page.rows) ≡ 3 ∷ 1 ∷ 5 ∷ 2 ∷ [] }
    ensures down { numbers_of (ordered page.first_down page.rows) ≡ 2 ∷ 1 ∷ 5 ∷ 3 ∷ [] }
    ensures texts { numbers_of (ordered page.second_up page.rows) ≡ 2 ∷ 5 ∷ 1 ∷ 3 ∷ [] }
    ensures both { numbers_of (ordered page.down_then_up page.rows) ≡ 2 ∷ 5 ∷ 1 ∷ 3 ∷ [] }
    ensures truths { numbers_of (ordered page.first_up page.others) ≡ 2 ∷ 1 ∷ 4 ∷ [] }
    ensures cases { numbers_of (ordered page.second_up page.others) ≡ 2 ∷ 1 ∷ 4 ∷ [] }
{}

/// What a window leaves of four rows.
#[tactic(auto, unfolding(crate::specs::Ordered::cell_order))]
pub fn windows_leave_these_places()
    ensures all { interval_of page.first_up page.all (ordered page.first_up page.rows) ≡ (0, 4) }
    ensures after { interval_of page.first_up
        (page.window None None 0 None (Some page.lowest)) (ordered page.first_up page.rows)
        ≡ (1, 4) }
    ensures before { interval_of page.first_up
        (page.window None None 0 (Some page.highest) None) (ordered page.first_up page.rows)
        ≡ (0, 3) }
    ensures gone { interval_of page.first_up
        (page.window None None 0 (Some page.highest) (Some page.gone))
        (ordered page.first_up page.rows) ≡ (2, 3) }
    ensures crossed { interval_of page.first_up
        (page.window None None 0 (Some page.lowest) (Some page.highest))
        (ordered page.first_up page.rows) ≡ (4, 4) }
    ensures offset { interval_of page.first_up (page.window (Some 2) None 1 None None)
        (ordered page.first_up page.rows) ≡ (1, 3) }
    ensures past { interval_of page.first_up (page.window (Some 2) None 9 None None)
        (ordered page.first_up page.rows) ≡ (4, 4) }
    ensures last { interval_of page.first_up (page.window None (Some 2) 1 None None)
        (ordered page.first_up page.rows) ≡ (2, 4) }
    ensures few { interval_of page.first_up (page.window None (Some 9) 1 None None)
        (ordered page.first_up page.rows) ≡ (1, 4) }
    ensures between { interval_of page.first_up
        (page.window None (Some 1) 0 (Some page.highest) (Some page.lowest))
        (ordered page.first_up page.rows) ≡ (2, 3) }
{}
