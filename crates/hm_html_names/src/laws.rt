//! Laws over the names of the standard. The functions do nothing.
ghost use Rattle.std.specs.Prelude.{◌≡◌, Ok};
ghost use Rattle.hm_refs.specs.Json.{checked};
ghost use Rattle.hm_refs.specs.Tables.{IsTable};
ghost use Rattle.hm_html_names.specs.HtmlNames.{html_entries};

/// The names are a table, as the names of every table that is read are.
pub fn html_is_table()
    ensures { IsTable html_entries }
{}

/// They pass the checks of a table that is read.
pub fn html_is_checked()
    ensures { checked html_entries ≡ Ok html_entries }
{}
