//! Seeded sets and changes.

use super::changes_as_built;
use std::alloc::Global;
use std::test::Fail;
use test_devices::Numbers;

/// Appends the line of an object of this index: its kind and its id by the index, all else by the form.
fn append_line(alloc: Global, index: u64, form: u64, text: &mut String) -> Result<(), Fail> {
    let id = (index / 3).wrapping_mul(7) % 50;
    let (a, b, c) = (form % 4, form / 4 % 5, form / 20 % 3);
    let line = match index % 3 {
        0 => format!(in alloc; "n{id} v{c} Tk{a}={b},m={c} x{a}.{b} y-{c}\n")?,
        1 => format!(in alloc; "w{id} Tk{a}={b} Nn{a},n{b},n{c},n{a}\n")?,
        _ => format!(in alloc; "r{id} T Mw{a}@x,n{b}@,r{c}@y,w{a}@z\n")?,
    };
    text.push_str(line.as_str())?;
    Ok(())
}

/// Appends the line that deletes the object of this index.
fn append_delete(alloc: Global, index: u64, text: &mut String) -> Result<(), Fail> {
    let id = (index / 3).wrapping_mul(7) % 50;
    let letter = match index % 3 {
        0 => "n",
        1 => "w",
        _ => "r",
    };
    let line = format!(in alloc; "{letter}{id} dD\n")?;
    text.push_str(line.as_str())?;
    Ok(())
}

/// The forms of the objects of a set, by index: none where there is no such object.
fn forms(alloc: Global, numbers: &mut Numbers) -> Result<Vec<Option<u64>>, Fail> {
    let share = numbers.below(10);
    let mut forms = Vec::new(alloc);
    for _ in 0..150 {
        let form = u64::from(numbers.below(60));
        forms.push(if numbers.below(10) < share {
            Some(form)
        } else {
            None
        })?;
    }
    Ok(forms)
}

/// The text of a set.
fn set_text(alloc: Global, forms: &[Option<u64>]) -> Result<String, Fail> {
    let mut text = String::new(alloc);
    for (index, form) in forms.iter().enumerate() {
        if let Some(form) = form {
            append_line(alloc, index as u64, *form, &mut text)?;
        }
    }
    Ok(text)
}

/// Changes some of the objects, and gives the text of the changes: from the last to the first.
fn change(alloc: Global, forms: &mut [Option<u64>], numbers: &mut Numbers) -> Result<String, Fail> {
    let share = numbers.below(12);
    let mut text = String::new(alloc);
    for index in (0..forms.len()).rev() {
        if numbers.below(12) >= share {
            continue;
        }
        if forms[index].is_some() && numbers.below(2) == 0 {
            forms[index] = None;
            append_delete(alloc, index as u64, &mut text)?;
        } else {
            let form = u64::from(numbers.below(60));
            forms[index] = Some(form);
            append_line(alloc, index as u64, form, &mut text)?;
        }
    }
    Ok(text)
}

#[test]
fn seeded_changes_make_what_is_built(rt: HostRuntime) -> Result<(), Fail> {
    let alloc = rt.alloc();
    for seed in 0..100 {
        let mut numbers = Numbers::new(seed);
        let mut forms = forms(alloc, &mut numbers)?;
        let set = set_text(alloc, &forms)?;
        let changes = change(alloc, &mut forms, &mut numbers)?;
        let changed = set_text(alloc, &forms)?;
        assert!(rt; changes_as_built(alloc, set.as_str(), changes.as_str(), changed.as_str())?);
    }
    Ok(())
}
