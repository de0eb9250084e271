//! What a job's transaction is committed with, but for its date.
ghost use Rattle.std.specs.Prelude.{◌≡◌, IfOk, OnOk, option_map};
ghost use Rattle.fsfs_jobs.specs.Properties.{with_text, undated_properties};

use fsfs_base::Pairs;
use fsfs_script::{Author, CommitJob, Text};
use std::alloc::{AllocError, Global};

fn author_bytes(author: &Option<Author>) -> Option<&[u8]>
    ensures { option_map (λ a. a.now) result ≡ author.now }
{
    match author {
        None => None,
        Some(author) => Some(author.as_str().as_bytes()),
    }
}

fn log_bytes(log: &Option<Text>) -> Option<&[u8]>
    ensures { option_map (λ l. l.now) result ≡ log.now }
{
    match log {
        None => None,
        Some(log) => Some(log.as_slice()),
    }
}

// Gives the name this value, where there is one.
fn set_text(
    alloc: Global,
    properties: &mut Pairs,
    name: &[u8],
    value: Option<&[u8]>,
) -> Result<(), AllocError>
    ensures { OnOk result (properties.new ≡ with_text properties.old name.now (option_map (λ v. v.now) value.entry)) }
{
    let Some(value) = value else {
        return Ok(());
    };
    let name = Vec::from_slice(alloc, name)?;
    let value = Vec::from_slice(alloc, value)?;
    properties.set(name, value)?;
    Ok(())
}

/// The author and the log of a job, where it has them, as the properties of a revision.
pub fn properties_of(alloc: Global, job: &CommitJob) -> Result<Pairs, AllocError>
    ensures { IfOk result (λ properties. properties ≡ undated_properties job.now) }
{
    let mut properties = Pairs::new(alloc);
    set_text(
        alloc,
        &mut properties,
        b"svn:author",
        author_bytes(&job.author),
    )?;
    set_text(alloc, &mut properties, b"svn:log", log_bytes(&job.log))?;
    Ok(properties)
}
