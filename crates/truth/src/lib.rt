// Whether flags that someone hands over are the truth, found strip by strip with no links and no counts.
#![tactic(auto)]

pub mod strips;
