//! Each law of expressions and of replies, called once.
use ratio_expressions::laws::{
    no_cut, one_cut, one_reading, one_refusal, one_too_deep, one_tree, one_tree_of_steps,
    one_tree_of_text, read_from_the_left, refused_has_no_tree,
};
use ratio_expressions::{replies, value_laws};

#[test]
fn each_law_is_called() {
    one_tree();
    one_tree_of_steps();
    one_cut();
    no_cut();
    one_tree_of_text();
    one_refusal();
    refused_has_no_tree();
    one_too_deep();
    one_reading();
    read_from_the_left();
    value_laws::one_worth();
    value_laws::worth_or_refusal();
    value_laws::one_refusal();
    replies::laws::one_reply();
    replies::laws::tiny_floats();
}
