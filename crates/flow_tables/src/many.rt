//! A module of no functions, and one of many.
use crate::lists::lists_of;
use crate::texts::{constraints_of, tree_of};
use js_scopes::sites;
use std::process::Abort;
use std::test::Fail;

#[test]
fn the_empty_text_has_its_body_alone(rt: HostRuntime) -> Result<(), Fail> {
    let alloc = rt.alloc();
    let made = constraints_of(alloc, &tree_of(alloc, "")?)?;
    assert_eq!(rt; lists_of(alloc, &made)?.as_str(), "functions 0/0 <module>");
    Ok(())
}

#[test]
fn many_functions_have_their_sites_and_names(rt: HostRuntime) -> Result<(), Fail> {
    let alloc = rt.alloc();
    let mut text = String::new(alloc);
    for i in 0..150 {
        write!(text, "function f{i}() {{ }}\nf{i}();\n")?;
    }
    let tree = tree_of(alloc, text.as_str())?;
    let made = constraints_of(alloc, &tree)?;
    assert_eq!(rt; made.functions().len(), 151);
    assert_eq!(rt; made.functions()[150].name.as_str(), "f149");
    assert_eq!(rt; made.sites().len(), 150);
    assert_eq!(rt; sites(alloc, &tree)?.as_slice().len(), 150);
    assert_eq!(rt; made.flows().len(), 300);
    Ok(())
}
