//! Laws of the definitions. Each function has an empty body; its contract is the law.
ghost use Rattle.std.specs.Prelude.{◌≤◌};
ghost use Rattle.peg_code.specs.Compiled.{max_instructions};
ghost use Rattle.peg_metagrammar.specs.Figure.{figure};
ghost use Rattle.peg_parser.specs.Accepts.{code_size};
ghost use Rattle.peg_parser.specs.ReadsByFigure.{AgreesWithRead};

/// The code of the metagrammar is within the limit.
pub fn the_code_of_the_figure_is_small()
    ensures { code_size figure ≤ max_instructions }
{}

/// If `read` returns definitions, `read_by_figure` returns the same rules, unless an allocation fails.
pub fn both_readers_agree()
    ensures { AgreesWithRead }
{}
