// What holds of the bytes of lines, whoever wrote them.
ghost use Rattle.sd_script.specs.Grammar.{HaveOneForm, HaveOneShape};

/// No bytes have the forms of two lines.
pub fn lines_have_one_form()
    ensures { HaveOneForm }
{}

/// No bytes have the forms of two lines, even if words are in the places of names, whatever words these are.
pub fn lines_have_one_shape()
    ensures { HaveOneShape }
{}
