// Laws of what is read and written.
ghost use Rattle.finite_model.specs.Malformed.{ModelsTellMalformed};
ghost use Rattle.finite_model.specs.ReadBack.{ModelsAreReadBack};
ghost use Rattle.finite_model.specs.Unplaced.{OldModelsAreReadAlike};

/// The malformed line that `read_text` tells is the first: some text of a model begins with the lines before it and
/// none with these and it, or it would stand after the last line, and a text begins with all lines. Lines of which none
/// is malformed are the text of a model.
pub fn malformed_line_is_the_first()
    ensures { ModelsTellMalformed }
{}

/// The lines of a model's text are the text of that model, for names that are listed once and have no blank and no end
/// of a line in them, as IRIs have none, and for an interpretation of listed classes, roles and individuals.
pub fn models_are_read_back()
    ensures { ModelsAreReadBack }
{}

/// Where no individual is listed, each line of a model's text is read as that of a role or of a class, and a line of an
/// individual makes a text malformed: texts of models from before there were individuals keep their meaning.
pub fn old_models_are_read_alike()
    ensures { OldModelsAreReadAlike }
{}
