//! A SLURM file that reads.

/// The example of RFC 8416 section 3.5 without its BGPsec entries, and with its IPv6 prefix in the
/// spelling of RFC 5952.
pub const SAMPLE: &str = r#"{
    "slurmVersion": 1,
    "validationOutputFilters": {
        "prefixFilters": [
            {"prefix": "192.0.2.0/24", "comment": "All VRPs encompassed by prefix"},
            {"asn": 64496, "comment": "All VRPs matching ASN"},
            {"prefix": "198.51.100.0/24", "asn": 64497,
             "comment": "All VRPs encompassed by prefix, matching ASN"}
        ],
        "bgpsecFilters": []
    },
    "locallyAddedAssertions": {
        "prefixAssertions": [
            {"asn": 64496, "prefix": "198.51.100.0/24", "comment": "My other important route"},
            {"asn": 64496, "prefix": "2001:db8::/32", "maxPrefixLength": 48,
             "comment": "My other important de-aggregated routes"}
        ],
        "bgpsecAssertions": []
    }
}"#;
