ghost use Rattle.std.specs.Prelude.{◌≡◌};
ghost use Rattle.report.specs.Names.{has_details, has_tables};

use report::Form;

// Whether the text has facets, sends and the chains under columns and verdicts.
pub fn has_details(form: Form) -> bool
    ensures { result ≡ has_details form }
{
    match form {
        Form::Certificate => true,
        Form::Short => false,
        Form::Basis => false,
    }
}

// Whether the text has products, operations, verdicts and induced blocks.
pub fn has_tables(form: Form) -> bool
    ensures { result ≡ has_tables form }
{
    match form {
        Form::Certificate => true,
        Form::Short => true,
        Form::Basis => false,
    }
}
