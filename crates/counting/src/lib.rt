// No function: what is so of a count beside another altered word.
#![tactic(auto)]
